// Names.
ghost use Rattle.std.specs.Prelude.{Decides};
ghost use Rattle.model_text.specs.Words.{Stop, Stops};
ghost use Rattle.words.specs.Forms.{names, nexts};
ghost use Rattle.words.specs.Readings.{Reads};
ghost use Rattle.words.specs.Wholes.{ExpectsWhole};
ghost use Rattle.words.specs.Parts.{numbered, ones, twos};

use crate::expected::expect;
use crate::numbers::read_number;
use model_text::{Double, Name, Single};

fn is_stop(b: u8) -> bool
    ensures { Decides result (Stop b) }
{
    matches!(b, b' ' | b')' | b';')
}

// Nothing at the head of the text carries a word on.
pub fn is_stopped(text: &[u8]) -> bool
    ensures { Decides result (Stops text.now) }
{
    match text {
        [first, ..] => is_stop(*first),
        [] => true,
    }
}

// The text behind `word`, if it stands at the head as a whole word.
pub fn expect_whole<'a>(text: &'a [u8], word: &[u8]) -> Option<&'a [u8]>
    ensures { ExpectsWhole word.now text.now result }
{
    expect(text, word).filter(|rest| is_stopped(rest))
}

// A letter and a number, with no further digit behind it.
fn read_numbered(text: &[u8]) -> Option<((Single, u16), &[u8])>
    ensures { Reads numbered text.now result }
{
    let (letter, behind) = text.split_first()?;
    let letter = Single::from_letter(*letter)?;
    let (n, rest) = read_number(behind, 999)?;
    Some(((letter, n as u16), rest))
}

fn read_one(text: &[u8]) -> Option<(Name, &[u8])>
    ensures { Reads ones text.now result }
{
    let ((letter, number), rest) = read_numbered(text)?;
    is_stopped(rest).then_some((Name::One(letter, number), rest))
}

fn read_two(text: &[u8]) -> Option<(Name, &[u8])>
    ensures { Reads twos text.now result }
{
    let (letter, behind) = text.split_first()?;
    let letter = Double::from_letter(*letter)?;
    let (n, rest) = read_number(behind, 999)?;
    let (m, rest) = read_number(expect(rest, b"_")?, 999)?;
    is_stopped(rest).then_some((Name::Two(letter, n as u16, m as u16), rest))
}

// A name, with nothing behind it that carries a word on.
// Not one chain of `or_else`: most links would be a closure with a `map` inside, which reads no plainer.
pub fn read_name(text: &[u8]) -> Option<(Name, &[u8])>
    ensures { Reads names text.now result }
{
    if let Some(rest) = expect_whole(text, b"ev") {
        return Some((Name::Event, rest));
    }
    if let Some(rest) = expect_whole(text, b"mk") {
        return Some((Name::Marked, rest));
    }
    read_one(text).or_else(|| read_two(text))
}

// Behind `next(`: a location or a variable, and a closing parenthesis.
pub fn read_next_name(text: &[u8]) -> Option<((Single, u16), &[u8])>
    ensures { Reads nexts text.now result }
{
    let ((letter, number), rest) = read_numbered(text)?;
    if !letter.has_next() {
        return None;
    }
    Some(((letter, number), expect(rest, b")")?))
}

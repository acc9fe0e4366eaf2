// Words.
ghost use Rattle.words.specs.Forms.{words};
ghost use Rattle.words.specs.Readings.{Reads};

use crate::names::{expect_whole, is_stopped, read_name};
use crate::numbers::read_number;
use model_text::Word;

// A word, with nothing behind it that carries it on.
// Not a chain of `or_else`: each link would be a closure with a `map` inside, which reads no plainer.
pub fn read_word(text: &[u8]) -> Option<(Word, &[u8])>
    ensures { Reads words text.now result }
{
    if let Some((name, rest)) = read_name(text) {
        return Some((Word::Name(name), rest));
    }
    if let Some(rest) = expect_whole(text, b"TRUE") {
        return Some((Word::Truth(true), rest));
    }
    if let Some(rest) = expect_whole(text, b"FALSE") {
        return Some((Word::Truth(false), rest));
    }
    let (n, rest) = read_number(text, 32768)?;
    is_stopped(rest).then_some((Word::Number(n as u16), rest))
}

// The words of a line, with one space between two.
ghost use Rattle.std.specs.Prelude.{◌≡◌, ℕ, ◌<◌, ◌≤◌, length, Some, None, MatchResult, ◌≢◌, slice_index};
ghost use Rattle.std.specs.Option.{option_map};
ghost use Rattle.ask.specs.Answers.{NoBytes};
ghost use Rattle.ask.specs.Words.{Begins, word_bytes};

use crate::answer::{Failure, Mistake};
use hexadecimal::bytes_of;
use std::alloc::Global;

// The first word of a text, and the words after it, if any.
pub fn first_word(text: &[u8]) -> (&[u8], Option<&[u8]>)
    ensures { Begins text.now result.0.now (option_map (λ x. x.now) result.1) }
{
    match text.iter().position(|b| *b == b' ') {
        Some(end) => (&text[..end], Some(&text[end + 1..])),
        None => (text, None),
    }
}

// The bytes of a word: hexadecimal, or `-` for none.
pub fn word_bytes(heap: Global, word: &[u8]) -> Result<Vec<u8>, Failure>
    ensures { MatchResult result (λ v. word_bytes word.now ≡ Some v.items) (λ e. NoBytes word.now e) }
{
    match word {
        b"" => Err(Mistake::EmptyWord.into()),
        b"-" => Ok(Vec::new(heap)),
        _ => bytes_of(heap, word)?.ok_or(Mistake::NoBytes.into()),
    }
}

// The questions, each with a function that reads its words and answers it.
use crate::answer::{Answer, Failure, Mistake};
use crate::words::{first_word, word_bytes};
use std::alloc::{AllocError, Global};

// The only word that is left.
fn last_word(words: Option<&[u8]>) -> Result<&[u8], Mistake> {
    match words.map(first_word) {
        Some((word, None)) => Ok(word),
        Some(_) => Err(Mistake::ExtraWord),
        None => Err(Mistake::MissingWord),
    }
}

// `check BYTES`: whether the bytes are a system file.
fn check(heap: Global, words: Option<&[u8]>) -> Result<Answer, Failure> {
    let file = word_bytes(heap, last_word(words)?)?;
    Ok(match system::check(file.as_slice()) {
        Ok(_) => Answer::Accepted,
        Err(fault) => Answer::Refused(fault),
    })
}

fn ask(heap: Global, line: &[u8]) -> Result<Answer, Failure> {
    let (question, words) = first_word(line);
    // By match: a table of functions would hold one.
    match question {
        b"" => Err(Mistake::Empty.into()),
        b"check" => check(heap, words),
        _ => Err(Mistake::UnknownQuestion.into()),
    }
}

// The answer to a line.
pub fn answer_to(heap: Global, line: &[u8]) -> Result<Answer, AllocError> {
    ask(heap, line).or_else(|failure| match failure {
        Failure::NoQuestion(mistake) => Ok(Answer::Error(mistake)),
        Failure::Memory(e) => Err(e),
    })
}

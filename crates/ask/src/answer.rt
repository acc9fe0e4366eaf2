// Answers, and why a line has none.
ghost use Rattle.std.specs.Prelude.{◌≡◌};
ghost use Rattle.ask.specs.Answers.{answer_line};
ghost use Rattle.ask.specs.declared.answer.Failure.TheVariants.{NoQuestion, Memory};

use report::Refused;
use scan::Fault;
use std::alloc::AllocError;
use std::fmt;
use std::fmt::Display;

// Why a line is no question.
#[derive(Clone, Copy)]
pub enum Mistake {
    Empty,
    UnknownQuestion,
    MissingWord,
    EmptyWord,
    ExtraWord,
    NoBytes,
}

impl fmt::Display for Mistake {
    fn fmt<W: fmt::Write>(&self, f: &mut fmt::Formatter<W>) -> fmt::Result {
        f.write_str(match self {
            Mistake::Empty => "the line has no question",
            Mistake::UnknownQuestion => "the question is unknown",
            Mistake::MissingWord => "a word is missing",
            Mistake::EmptyWord => "a word is empty",
            Mistake::ExtraWord => "a word is too many",
            Mistake::NoBytes => "bytes are pairs of hexadecimal digits, or - for none",
        })
    }
}

#[derive(Clone, Copy)]
pub enum Answer {
    Accepted,
    Refused(Fault),
    Error(Mistake),
}

impl fmt::Display for Answer {
    ghost output = { answer_line };

    fn fmt<W: fmt::Write>(&self, f: &mut fmt::Formatter<W>) -> fmt::Result {
        match *self {
            Answer::Accepted => f.write_str("ok"),
            Answer::Refused(fault) => Refused(fault).fmt(f),
            Answer::Error(mistake) => write!(f, "error {mistake}"),
        }
    }
}

// Why a question is not answered.
#[derive(Clone, Copy)]
pub enum Failure {
    NoQuestion(Mistake),
    Memory(AllocError),
}

impl From<Mistake> for Failure {
    ghost from_gives = { λ m r. r ≡ NoQuestion m };

    fn from(mistake: Mistake) -> Failure {
        Failure::NoQuestion(mistake)
    }
}

impl From<AllocError> for Failure {
    ghost from_gives = { λ e r. r ≡ Memory e };

    fn from(e: AllocError) -> Failure {
        Failure::Memory(e)
    }
}

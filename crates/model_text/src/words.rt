// The words, operators and headings of a model text.
ghost use Rattle.std.specs.Prelude.{◌≡◌, Decides};
ghost use Rattle.model_text.specs.Words.{single, double, operator_text};
ghost use Rattle.model_text.specs.Trees.{HasNext};
ghost use Rattle.model_text.specs.Letters.{LetterOf};

use expr::code::{Joint, Order, Sign};

#[derive(Clone, Copy, Debug, PartialEq, Eq)]
pub enum Kind {
    Guard,
    Term,
}

// What a name with one number stands for, by its letter.
#[derive(Clone, Copy, Debug, PartialEq, Eq)]
pub enum Single {
    Choice = b'c' as isize,
    Location = b's' as isize,
    Variable = b'u' as isize,
    SettledValue = b'z' as isize,
    Permission = b'y' as isize,
    PlantsOpen = b'p' as isize,
    LocationMarked = b'l' as isize,
}

impl Single {
    const ALL: [Single; 7] = [
        Single::Choice,
        Single::Location,
        Single::Variable,
        Single::SettledValue,
        Single::Permission,
        Single::PlantsOpen,
        Single::LocationMarked,
    ];

    pub fn letter(self) -> u8
        ensures { result ≡ single self }
    {
        self as u8
    }

    // As for `Double`: a trait for the letters of both would be longer than what it saves here and in `words`.
    pub fn from_letter(letter: u8) -> Option<Single>
        ensures { LetterOf single letter result }
    {
        Single::ALL.iter().copied().find(|x| x.letter() == letter)
    }

    // A location and a variable have a next value.
    pub fn has_next(self) -> bool
        ensures { Decides result (HasNext self) }
    {
        matches!(self, Single::Location | Single::Variable)
    }
}

// What a name with two numbers stands for, by its letter.
#[derive(Clone, Copy, Debug, PartialEq, Eq)]
pub enum Double {
    Transition = b't' as isize,
    WishStatus = b'w' as isize,
    WishValue = b'd' as isize,
    JoinedStatus = b'a' as isize,
    JoinedValue = b'b' as isize,
    Open = b'n' as isize,
}

impl Double {
    const ALL: [Double; 6] = [
        Double::Transition,
        Double::WishStatus,
        Double::WishValue,
        Double::JoinedStatus,
        Double::JoinedValue,
        Double::Open,
    ];

    pub fn letter(self) -> u8
        ensures { result ≡ double self }
    {
        self as u8
    }

    pub fn from_letter(letter: u8) -> Option<Double>
        ensures { LetterOf double letter result }
    {
        Double::ALL.iter().copied().find(|x| x.letter() == letter)
    }
}

// `ev`, `mk`, and the names with numbers.
#[derive(Clone, Copy, Debug, PartialEq, Eq)]
pub enum Name {
    Event,
    Marked,
    One(Single, u16),
    Two(Double, u16, u16),
}

#[derive(Clone, Copy, Debug, PartialEq, Eq)]
pub enum Word {
    Truth(bool),
    Number(u16),
    Name(Name),
}

#[derive(Clone, Copy, Debug, PartialEq, Eq)]
pub enum Operator {
    Join(Joint),
    Test(Order),
    Sum(Sign),
}

impl Operator {
    // With its spaces.
    pub fn text(self) -> &'static [u8]
        ensures { result.now ≡ operator_text self }
    {
        match self {
            Operator::Join(joint) => joint.text(),
            Operator::Test(order) => order.text(),
            Operator::Sum(sign) => sign.text(),
        }
    }
}

// `MODULE main`, `IVAR`, `VAR`, `DEFINE`.
#[derive(Clone, Copy, Debug, PartialEq, Eq)]
pub enum Heading {
    Module,
    Inputs,
    State,
    Definitions,
}

// `INIT`, `TRANS`, `SPEC AG`, `SPEC AG EF`.
#[derive(Clone, Copy, Debug, PartialEq, Eq)]
pub enum Constraint {
    Start,
    Step,
    Always,
    Reachable,
}

// Which line of a text is due.
#[derive(Clone, Copy, Debug, PartialEq, Eq)]
pub enum Phase {
    Rule,
    Module,
    Inputs,
    Event,
    Choices,
    State,
    Definitions,
    Starts,
    Steps,
    Always,
    End,
}

// What is wrong with a line: it is missing or is no line that may stand there (11), or only its names are wrong (12).
#[derive(Clone, Copy, Debug, PartialEq, Eq)]
pub enum TextRule {
    WrongLine = 11,
    WrongName = 12,
}

// Why a text is refused, and at which line, which counts from 1.
#[derive(Clone, Copy, Debug, PartialEq, Eq)]
pub struct TextFault {
    pub rule: TextRule,
    pub line: usize,
}

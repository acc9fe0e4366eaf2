// What a byte of the code stands for, by the place where it is read.
ghost use Rattle.std.specs.Prelude.{◌≡◌, ◌+◌, ◌*◌, ◌<◌, length, slice_index};
ghost use Rattle.std.specs.Int.{w16};
ghost use Rattle.std.proofs.Common.{to_z};
ghost use Rattle.expr.specs.Codes.{guard_code, term_code};
ghost use Rattle.expr.specs.Expr.{guard, term};
ghost use Rattle.expr.specs.Placed.{Standing};
ghost use Rattle.expr.specs.Text.{joint_text, order_text, sign_text};

#[derive(Clone, Copy, Debug, PartialEq, Eq)]
pub enum Joint {
    And,
    Or,
}

impl Joint {
    pub fn text(self) -> &'static [u8]
        ensures { result.now ≡ joint_text self }
    {
        match self {
            Joint::And => b" & ",
            Joint::Or => b" | ",
        }
    }
}

#[derive(Clone, Copy, Debug, PartialEq, Eq)]
pub enum Order {
    Eq,
    Ne,
    Lt,
    Le,
}

impl Order {
    pub fn text(self) -> &'static [u8]
        ensures { result.now ≡ order_text self }
    {
        match self {
            Order::Eq => b" = ",
            Order::Ne => b" != ",
            Order::Lt => b" < ",
            Order::Le => b" <= ",
        }
    }
}

#[derive(Clone, Copy, Debug, PartialEq, Eq)]
pub enum Sign {
    Plus,
    Minus,
}

impl Sign {
    pub fn text(self) -> &'static [u8]
        ensures { result.now ≡ sign_text self }
    {
        match self {
            Sign::Plus => b" + ",
            Sign::Minus => b" - ",
        }
    }
}

// Read as an Option: a byte that means nothing has no error to tell.
#[derive(Clone, Copy)]
pub enum GuardCode {
    Truth(bool),
    Not,
    Join(Joint),
    Test(Order),
}

impl GuardCode {
    pub fn of(b: u8) -> Option<GuardCode>
        ensures { result ≡ guard_code b }
    {
        Some(match b {
            0x01 => GuardCode::Truth(true),
            0x02 => GuardCode::Truth(false),
            0x03 => GuardCode::Not,
            0x04 => GuardCode::Join(Joint::And),
            0x05 => GuardCode::Join(Joint::Or),
            0x06 => GuardCode::Test(Order::Eq),
            0x07 => GuardCode::Test(Order::Ne),
            0x08 => GuardCode::Test(Order::Lt),
            0x09 => GuardCode::Test(Order::Le),
            _ => return None,
        })
    }

    // The code of the guard that stands at `at`.
    pub(crate) fn at(s: &[u8], at: usize) -> GuardCode
        requires { Standing guard s.now at }
        ensures { Some result ≡ guard_code (slice_index s.now at) }
    {
        GuardCode::of(s[at]).unwrap()
    }
}

#[derive(Clone, Copy)]
pub enum TermCode {
    Literal,
    Variable,
    Sum(Sign),
    Case,
}

impl TermCode {
    pub fn of(b: u8) -> Option<TermCode>
        ensures { result ≡ term_code b }
    {
        Some(match b {
            0x10 => TermCode::Literal,
            0x11 => TermCode::Variable,
            0x12 => TermCode::Sum(Sign::Plus),
            0x13 => TermCode::Sum(Sign::Minus),
            0x14 => TermCode::Case,
            _ => return None,
        })
    }

    // The code of the term that stands at `at`.
    pub(crate) fn at(s: &[u8], at: usize) -> TermCode
        requires { Standing term s.now at }
        ensures { Some result ≡ term_code (slice_index s.now at) }
    {
        TermCode::of(s[at]).unwrap()
    }
}

// The literal whose two bytes begin at `at`.
pub(crate) fn literal(s: &[u8], at: usize) -> i16
    requires { at + 1 < length s.now }
    ensures { result ≡ to_z w16 (slice_index s.now at * 256 + slice_index s.now (at + 1)) }
{
    i16::from_be_bytes([s[at], s[at + 1]])
}

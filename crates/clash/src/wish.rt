// A wish for the next value of a variable: none, one value, or a clash.
ghost use Rattle.std.specs.Prelude.{◌≡◌, false, pos};
ghost use Rattle.clash.specs.Carries.{carries};

#[derive(Clone, Copy, Debug, PartialEq, Eq)]
pub enum Status {
    Nothing,
    Single,
    Clash,
}

// A wish that is not for one value carries the value 0.
// A record by the project's rule, not an enum with a value: the laws and the expressions read both parts of each wish.
#[derive(Clone, Copy, Debug, PartialEq, Eq)]
pub struct Wish {
    status: Status,
    value: i32,
    ghost canonical: { (carries status ≡ false → value ≡ pos 0) },
}

impl Wish {
    ghost use Rattle.clash.specs.Wishes.{none, single, clash};

    // Beside `clash`: one function of the status could be asked for a single wish with the value 0.
    pub fn none() -> Self
        ensures { result ≡ none }
    {
        Self {
            status: Status::Nothing,
            value: 0,
        }
    }

    pub fn of(value: i32) -> Self
        ensures { result ≡ single value }
    {
        Self {
            status: Status::Single,
            value,
        }
    }

    pub fn clash() -> Self
        ensures { result ≡ clash }
    {
        Self {
            status: Status::Clash,
            value: 0,
        }
    }

    pub fn status(self) -> Status
        ensures { result ≡ self.status }
    {
        self.status
    }

    pub fn value(self) -> i32
        ensures { result ≡ self.value }
    {
        self.value
    }
}

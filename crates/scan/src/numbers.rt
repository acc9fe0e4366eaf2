// The numbers by which refusals are told. Methods, not conversions: only the refusal's line asks for them.
ghost use Rattle.std.specs.Prelude.{◌≡◌};
ghost use Rattle.scan.specs.Faults.{section_number, file_number, number as fault_number};

use crate::refusal::{Fault, FileFault, Section};

impl Section {
    pub fn number(self) -> u8
        ensures { result ≡ section_number self }
    {
        self as u8
    }
}

impl FileFault {
    pub fn number(self) -> u8
        ensures { result ≡ file_number self }
    {
        match self {
            FileFault::EndsTooSoon => 1,
            FileFault::BytesFollow => 2,
            FileFault::Breaks(rule) => rule as u8,
        }
    }
}

impl Fault {
    pub fn number(self) -> u8
        ensures { result ≡ fault_number self }
    {
        match self {
            Fault::File(wrong, _) => wrong.number(),
            Fault::Buffer(_) => 10,
        }
    }
}

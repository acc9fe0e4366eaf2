// Refusals as programs print them.
#![tactic(auto)]

ghost use Rattle.std.specs.Prelude.{Some};
ghost use Rattle.report.specs.Lines.{refused_line};

use scan::{Fault, Place};
use std::fmt;

// The refusal's line: `refused N S R B` of a file, number, section, row and byte, or `refused 10 L` of a
// buffer that is shorter than L.
#[derive(Clone, Copy)]
pub struct Refused(pub Fault);

impl fmt::Display for Refused {
    ghost output = { λ x. Some (refused_line x.0) };

    fn fmt<W: fmt::Write>(&self, f: &mut fmt::Formatter<W>) -> fmt::Result {
        let number = self.0.number();
        match self.0 {
            Fault::File(_, Place { section, row, byte }) => {
                let section = section.number();
                write!(f, "refused {number} {section} {row} {byte}")
            }
            Fault::Buffer(needed) => write!(f, "refused {number} {needed}"),
        }
    }
}

// The text form of guards and terms.
ghost use Rattle.describe.specs.Grown.{grown};

use arrayvec::ArrayVec;
use expr::{Expression, Numbered};
use sinks::Sink;
use std::fmt;

// Text of up to 8,192 bytes, which is more than any expression has. A byte without room is left out.
#[derive(Drop)]
struct Text(ArrayVec<u8, 8192>);

impl Sink for Text {
    ghost step = { grown };

    fn put(&mut self, b: u8) {
        let _ = self.0.try_push(b);
    }
}

impl fmt::Display for Text {
    fn fmt<W: fmt::Write>(&self, f: &mut fmt::Formatter<W>) -> fmt::Result {
        for b in &self.0 {
            f.write_char(char::from(*b))?;
        }
        Ok(())
    }
}

// A guard or a term, as `(u0 < 1)`.
#[derive(Clone, Copy)]
pub struct ExpressionText<E>(pub E);

impl<E: Expression> fmt::Display for ExpressionText<E> {
    fn fmt<W: fmt::Write>(&self, f: &mut fmt::Formatter<W>) -> fmt::Result {
        let mut text = Text(ArrayVec::new());
        self.0.put(&mut text, &Numbered);
        text.fmt(f)
    }
}

// The names of a model text.
ghost use Rattle.std.specs.Prelude.{◌≡◌, fold};
ghost use Rattle.model_text.specs.Words.{name_text};
ghost use Rattle.translation.specs.Written.{join_name, settle_name};

use expr::Names;
use model_text::{Double, Name, Single};
use sinks::{Sink, put_number, put_text};

pub fn put_name<S: Sink>(s: &mut S, x: Name)
    ensures { s.new ≡ fold S.Sink.step s.old (name_text x) }
{
    match x {
        Name::Event => put_text(s, b"ev"),
        Name::Marked => put_text(s, b"mk"),
        Name::One(x, n) => {
            s.put(x.letter());
            put_number(s, n as u64);
        }
        Name::Two(x, n, m) => {
            s.put(x.letter());
            put_number(s, n as u64);
            put_text(s, b"_");
            put_number(s, m as u64);
        }
    }
}

// The variables of a join's expressions: what the wishes for a variable come to up to an
// automaton, and the wish of the next one.
#[derive(Clone, Copy)]
pub struct Joining {
    pub variable: u8,
    pub automaton: u8,
}

impl Names for Joining {
    ghost name = { λ j v. name_text (join_name j.variable j.automaton v) };

    fn put_name<S: Sink>(&self, s: &mut S, v: u8) {
        let i = self.variable as u16;
        let k = self.automaton as u16;
        let name = match v {
            0 => Name::Two(Double::JoinedStatus, i, k),
            1 => Name::Two(Double::JoinedValue, i, k),
            2 => Name::Two(Double::WishStatus, i, k + 1),
            _ => Name::Two(Double::WishValue, i, k + 1),
        };
        put_name(s, name)
    }
}

// The variables of the expressions that settle a variable: what the wishes for it come to up to
// an automaton, named as in a join, and its old value.
// Not one table of names for both: `Names` names every number, so a table needs a name past its end.
#[derive(Clone, Copy)]
pub struct Settling {
    pub variable: u8,
    pub automaton: u8,
}

impl Names for Settling {
    ghost name = { λ j v. name_text (settle_name j.variable j.automaton v) };

    fn put_name<S: Sink>(&self, s: &mut S, v: u8) {
        let Settling {
            variable,
            automaton,
        } = *self;
        match v {
            0 | 1 => Joining {
                variable,
                automaton,
            }
            .put_name(s, v),
            _ => put_name(s, Name::One(Single::Variable, variable as u16)),
        }
    }
}

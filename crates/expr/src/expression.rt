// What guards and terms have in common.
ghost use Rattle.std.specs.Prelude.{◌≡◌, ℕ, List, fold};
ghost use Rattle.expr.specs.Coded.{Coded};
ghost use Rattle.expr.specs.Expr.{Kind, Expr, guard, term};
ghost use Rattle.expr.specs.Text.{text_of};

use crate::checked::{Guard, Term};
use crate::print::{Names, put_guard, put_term};
use sinks::Sink;

pub trait Expression {
    ghost kind: { Kind };

    // The byte code of a value.
    ghost code: { Self → List ℕ };

    // The text form.
    fn put<S: Sink, N: Names>(&self, s: &mut S, names: &N)
        ensures { (e : Expr kind) → Coded (code self.now) e → s.new ≡ fold S.Sink.step s.old (text_of (N.Names.name names.now) e) };
}

impl Expression for Guard<'_> {
    ghost kind = { guard };

    ghost code = { λ g. g.code.now };

    fn put<S: Sink, N: Names>(&self, s: &mut S, names: &N) {
        put_guard(s, names, self.code, 0);
    }
}

impl Expression for Term<'_> {
    ghost kind = { term };

    ghost code = { λ t. t.code.now };

    fn put<S: Sink, N: Names>(&self, s: &mut S, names: &N) {
        put_term(s, names, self.code, 0);
    }
}

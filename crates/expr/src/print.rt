// The text form of an expression, over its bytes.
ghost use Rattle.std.specs.Prelude.{◌≡◌, ℕ, ◌≤◌, List, ◌++◌, length, codes, decimal, fold};
ghost use Rattle.expr.specs.Expr.{guard, term};
ghost use Rattle.expr.specs.Placed.{Standing, Spans};
ghost use Rattle.expr.specs.Text.{truth_text, text_of};

use crate::code::{GuardCode, TermCode, literal};
use sinks::{Sink, put_number, put_text, put_value};

pub trait Names {
    // The name of each variable.
    ghost name: { Self → ℕ → List ℕ };

    fn put_name<S: Sink>(&self, s: &mut S, v: u8)
        ensures { s.new ≡ fold S.Sink.step s.old (name self.now v) };
}

// The names `u0`, `u1` and so on.
#[derive(Clone, Copy)]
pub struct Numbered;

impl Names for Numbered {
    ghost name = { λ _ v. codes "u" ++ decimal v };

    fn put_name<S: Sink>(&self, s: &mut S, v: u8) {
        put_text(s, b"u");
        put_number(s, v as u64);
    }
}

fn truth_text(b: bool) -> &'static [u8]
    ensures { result.now ≡ truth_text b }
{
    if b { b"TRUE" } else { b"FALSE" }
}

// Prints the guard that stands at `at`, and answers where it ends.
// The place moves with each call: a struct for it would have its facts proved as often, and one for the length of the
// code alone would be longer than its clause.
#[cycle(put_guard_put_term)]
pub(crate) fn put_guard<S: Sink, N: Names>(s: &mut S, names: &N, code: &[u8], at: usize) -> usize
    requires long { length code.now ≤ 255 }
    requires standing { Standing guard code.now at }
    ensures { Spans guard code.now at result (λ e. s.new ≡ fold S.Sink.step s.old (text_of (N.Names.name names.now) e)) }
{
    match GuardCode::at(code, at) {
        GuardCode::Truth(b) => {
            put_text(s, truth_text(b));
            at + 1
        }
        GuardCode::Not => {
            put_text(s, b"(!");
            let end = put_guard(s, names, code, at + 1);
            put_text(s, b")");
            end
        }
        GuardCode::Join(joint) => {
            put_text(s, b"(");
            let next = put_guard(s, names, code, at + 1);
            put_text(s, joint.text());
            let end = put_guard(s, names, code, next);
            put_text(s, b")");
            end
        }
        GuardCode::Test(order) => {
            put_text(s, b"(");
            let next = put_term(s, names, code, at + 1);
            put_text(s, order.text());
            let end = put_term(s, names, code, next);
            put_text(s, b")");
            end
        }
    }
}

// Prints the term that stands at `at`, and answers where it ends.
#[cycle(put_guard_put_term)]
pub(crate) fn put_term<S: Sink, N: Names>(s: &mut S, names: &N, code: &[u8], at: usize) -> usize
    requires long { length code.now ≤ 255 }
    requires standing { Standing term code.now at }
    ensures { Spans term code.now at result (λ e. s.new ≡ fold S.Sink.step s.old (text_of (N.Names.name names.now) e)) }
{
    match TermCode::at(code, at) {
        TermCode::Literal => {
            put_value(s, literal(code, at + 1));
            at + 3
        }
        TermCode::Variable => {
            names.put_name(s, code[at + 1]);
            at + 2
        }
        TermCode::Sum(sign) => {
            put_text(s, b"(");
            let next = put_term(s, names, code, at + 1);
            put_text(s, sign.text());
            let end = put_term(s, names, code, next);
            put_text(s, b")");
            end
        }
        TermCode::Case => {
            put_text(s, b"(case ");
            let first = put_guard(s, names, code, at + 1);
            put_text(s, b" : ");
            let next = put_term(s, names, code, first);
            put_text(s, b"; TRUE : ");
            let end = put_term(s, names, code, next);
            put_text(s, b"; esac)");
            end
        }
    }
}

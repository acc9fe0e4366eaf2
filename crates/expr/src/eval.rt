// The value of an expression, over its bytes.
ghost use Rattle.std.specs.Prelude.{◌≡◌, ◌+◌, ◌-◌, ◌<◌, ◌≤◌, length};
ghost use Rattle.expr.specs.Coded.{Coded};
ghost use Rattle.expr.specs.Expr.{Expr, guard, term, joined, tested, summed, eval};
ghost use Rattle.expr.specs.Placed.{Standing, Spans};
ghost use Rattle.expr.specs.Values.{value_of, Within, Small};

use crate::checked::{Guard, Term};
use crate::code::{GuardCode, Joint, Order, Sign, TermCode, literal};

fn join(joint: Joint, a: bool, b: bool) -> bool
    ensures { result ≡ joined joint a b }
{
    match joint {
        Joint::And => a && b,
        Joint::Or => a || b,
    }
}

fn test(order: Order, a: i32, b: i32) -> bool
    ensures { result ≡ tested order a b }
{
    match order {
        Order::Eq => a == b,
        Order::Ne => a != b,
        Order::Lt => a < b,
        Order::Le => a <= b,
    }
}

fn sum(sign: Sign, a: i32, b: i32) -> i32
    requires { (Within 255 a) × (Within 255 b) }
    ensures { result ≡ summed sign a b }
{
    match sign {
        Sign::Plus => a + b,
        Sign::Minus => a - b,
    }
}

// The value of a variable, which is 0 past the end of `values`.
fn variable(values: &[i16], v: u8) -> i32
    ensures value { result ≡ value_of values.now v }
    ensures bound { Within 2 result }
{
    values.get(v as usize).map_or(0, |x| i32::from(*x))
}

// The value of the guard that stands at `at`, and where it ends.
// As in printing, the place moves with each call, so no struct holds it and the code.
#[cycle(guard_value_term_value)]
fn guard_value(s: &[u8], at: usize, values: &[i16]) -> (bool, usize)
    requires long { length s.now ≤ 255 }
    requires standing { Standing guard s.now at }
    ensures { Spans guard s.now at result.1 (λ e. result.0 ≡ eval (value_of values.now) e) }
{
    match GuardCode::at(s, at) {
        GuardCode::Truth(b) => (b, at + 1),
        GuardCode::Not => {
            let (a, end) = guard_value(s, at + 1, values);
            (!a, end)
        }
        GuardCode::Join(joint) => {
            let (a, next) = guard_value(s, at + 1, values);
            let (b, end) = guard_value(s, next, values);
            (join(joint, a, b), end)
        }
        GuardCode::Test(order) => {
            let (a, next) = term_value(s, at + 1, values);
            let (b, end) = term_value(s, next, values);
            (test(order, a, b), end)
        }
    }
}

// The value of the term that stands at `at`, and where it ends.
#[cycle(guard_value_term_value)]
fn term_value(s: &[u8], at: usize, values: &[i16]) -> (i32, usize)
    requires long { length s.now ≤ 255 }
    requires standing { Standing term s.now at }
    ensures spans { Spans term s.now at result.1 (λ e. result.0 ≡ eval (value_of values.now) e) }
    ensures bound { Within (result.1 - at) result.0 }
{
    match TermCode::at(s, at) {
        TermCode::Literal => (literal(s, at + 1) as i32, at + 3),
        TermCode::Variable => (variable(values, s[at + 1]), at + 2),
        TermCode::Sum(sign) => {
            let (a, next) = term_value(s, at + 1, values);
            let (b, end) = term_value(s, next, values);
            (sum(sign, a, b), end)
        }
        TermCode::Case => {
            let (g, first) = guard_value(s, at + 1, values);
            let (a, next) = term_value(s, first, values);
            let (b, end) = term_value(s, next, values);
            (if g { a } else { b }, end)
        }
    }
}

impl Guard<'_> {
    // Its value, where a variable past the end of `values` is 0.
    pub fn value(&self, values: &[i16]) -> bool
        ensures { (e : Expr guard) → Coded self.now.code.now e → result ≡ eval (value_of values.now) e }
    {
        guard_value(self.code, 0, values).0
    }
}

impl Term<'_> {
    // Its value, where a variable past the end of `values` is 0. In `Expression` it would need a type and a bound for each.
    pub fn value(&self, values: &[i16]) -> i32
        ensures is { (e : Expr term) → Coded self.now.code.now e → result ≡ eval (value_of values.now) e }
        ensures bound { Small result }
    {
        term_value(self.code, 0, values).0
    }
}

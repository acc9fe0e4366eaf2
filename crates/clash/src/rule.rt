// A clash rule joins the wishes for a variable and settles what they come to.
ghost use Rattle.std.specs.Prelude.{◌≡◌, ℕ};
ghost use Rattle.expr.specs.Coded.{Coded};
ghost use Rattle.clash.specs.Orders.{Total};
ghost use Rattle.clash.specs.Rules.{ClashRule, Lawful};
ghost use Rattle.clash.specs.Wishes.{none};

use crate::wish::Wish;
use expr::{Guard, Term};

// The next value, and whether the step is permitted.
// Not an Option: the laws and the model text have the value also where the step is not permitted.
#[derive(Clone, Copy, Debug, PartialEq, Eq)]
pub struct Settled {
    pub value: i32,
    pub permitted: bool,
}

// What it answers is `rule`, which keeps the laws.
pub trait Rule {
    // From 1 to 999, another one for each rule.
    const NUMBER: u16;

    ghost NUMBER: { ℕ };

    ghost rule: { ClashRule };

    fn code() -> u16
        ensures { result ≡ rule.number }
    {
        Self::NUMBER
    }

    fn join(a: Wish, b: Wish) -> Wish
        ensures { result ≡ rule.joins a b };

    fn settle(w: Wish, old: i32) -> Settled
        ensures { (result.value ≡ rule.settles w old) × (result.permitted ≡ rule.permits w old) };

    // Over status and value of the first wish, then of the second.
    fn joined_status<'a>() -> Term<'a>
        ensures { Coded result.code.now rule.joined_status };

    // Over the same variables.
    fn joined_value<'a>() -> Term<'a>
        ensures { Coded result.code.now rule.joined_value };

    // Over status, value and old value.
    fn settled_value<'a>() -> Term<'a>
        ensures { Coded result.code.now rule.settled_value };

    // Over the same variables.
    fn permission<'a>() -> Guard<'a>
        ensures { Coded result.code.now rule.permission };

    ghost numbered: { NUMBER ≡ rule.number };

    ghost lawful: { Lawful rule };
}

// What the wishes come to, in any order and any bracketing.
pub fn join_all<R: Rule>(wishes: &[Wish]) -> Wish
    ensures { Total none R.Rule.rule.joins wishes.now result }
{
    wishes
        .iter()
        .fold(Wish::none(), |joined, w| R::join(joined, *w))
}

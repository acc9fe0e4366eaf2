// Rules by which equal values join to that value, unequal ones clash, and a clash stays one.
ghost use Rattle.std.specs.Prelude.{◌≡◌, ℕ, Bool, ℤ, refl};
ghost use Rattle.expr.specs.Expr.{Expr, guard};
ghost use Rattle.expr.specs.Coded.{Coded};
ghost use Rattle.clash.specs.EqualValues.{equal_values, permitted, Permission};
ghost use Rattle.clash.specs.Laws.EqualValues.{lawful_equal_values};

use crate::rule::{Rule, Settled};
use crate::wish::{Status, Wish};
use expr::{Guard, Term};

// (case (a = 0) : w; TRUE :
// (case (w = 0) : a; TRUE :
// (case (((a = 1) & (w = 1)) & (b = d)) : 1; TRUE : 2; esac); esac); esac)
const JOINED_STATUS: &[u8] = b"\x14\x06\x11\x00\x10\x00\x00\x11\x02\
    \x14\x06\x11\x02\x10\x00\x00\x11\x00\
    \x14\x04\x04\x06\x11\x00\x10\x00\x01\x06\x11\x02\x10\x00\x01\x06\x11\x01\x11\x03\
    \x10\x00\x01\x10\x00\x02";

// The same with d, b, b and 0 in the places of w, a, 1 and 2.
const JOINED_VALUE: &[u8] = b"\x14\x06\x11\x00\x10\x00\x00\x11\x03\
    \x14\x06\x11\x02\x10\x00\x00\x11\x01\
    \x14\x04\x04\x06\x11\x00\x10\x00\x01\x06\x11\x02\x10\x00\x01\x06\x11\x01\x11\x03\
    \x11\x01\x10\x00\x00";

// (case (s = 1) : v; TRUE : o; esac)
const SETTLED_VALUE: &[u8] = b"\x14\x06\x11\x00\x10\x00\x01\x11\x01\x11\x02";

// What such a rule says: its number, and when a clash is permitted. Any other wish is permitted.
pub trait EqualValues {
    // From 1 to 999, another one for each rule.
    const NUMBER: u16;

    ghost NUMBER: { ℕ };

    ghost permits_clash: { ℤ → Bool };

    ghost permission: { Expr guard };

    // Whether a clash is permitted at this old value.
    fn permits_clash(old: i32) -> bool
        ensures { result ≡ permits_clash old };

    // Whether a wish is permitted, over status, value and old value.
    fn guard<'a>() -> Guard<'a>
        ensures { Coded result.code.now permission };

    ghost agrees: { Permission NUMBER permits_clash permission };
}

impl<E: EqualValues> Rule for E {
    const NUMBER: u16 = E::NUMBER;

    ghost NUMBER = { E.NUMBER };

    ghost rule = { equal_values E.NUMBER (permitted E.permits_clash) E.permission };

    ghost numbered = { refl };

    ghost lawful = { lawful_equal_values E.agrees };

    fn join(a: Wish, b: Wish) -> Wish {
        match (a.status(), b.status()) {
            (Status::Nothing, _) => b,
            (Status::Single, Status::Nothing) => a,
            (Status::Single, Status::Single) if a.value() == b.value() => a,
            _ => Wish::clash(),
        }
    }

    // A wish for one value settles to it, any other keeps the old value.
    fn settle(w: Wish, old: i32) -> Settled {
        Settled {
            value: match w.status() {
                Status::Single => w.value(),
                _ => old,
            },
            permitted: E::permits_clash(old) || w.status() != Status::Clash,
        }
    }

    fn joined_status<'a>() -> Term<'a> {
        Term {
            code: JOINED_STATUS,
        }
    }

    fn joined_value<'a>() -> Term<'a> {
        Term { code: JOINED_VALUE }
    }

    fn settled_value<'a>() -> Term<'a> {
        Term {
            code: SETTLED_VALUE,
        }
    }

    fn permission<'a>() -> Guard<'a> {
        E::guard()
    }
}

// A clash is permitted, and the variable keeps its value.
ghost use Rattle.std.specs.Prelude.{true};
ghost use Rattle.std.proofs.Common.{rules};
ghost use Rattle.expr.specs.Expr.{truth};

use crate::equal_values::EqualValues;
use expr::Guard;

pub struct KeepOnClash;

impl EqualValues for KeepOnClash {
    const NUMBER: u16 = 1;

    ghost NUMBER = { 1 };

    ghost permits_clash = { λ _. true };

    ghost permission = { truth true };

    ghost agrees = { Prim.search rules };

    fn permits_clash(_old: i32) -> bool {
        true
    }

    // TRUE
    fn guard<'a>() -> Guard<'a> {
        Guard { code: b"\x01" }
    }
}

// A clash is forbidden.
ghost use Rattle.std.specs.Prelude.{false, pos};
ghost use Rattle.std.proofs.Common.{rules};
ghost use Rattle.expr.specs.Expr.{test, variable, literal};
ghost use Rattle.expr.specs.declared.code.Order.TheVariants.{Ne};

use crate::equal_values::EqualValues;
use expr::Guard;

pub struct ForbidClash;

impl EqualValues for ForbidClash {
    const NUMBER: u16 = 2;

    ghost NUMBER = { 2 };

    ghost permits_clash = { λ _. false };

    ghost permission = { test Ne (variable 0) (literal (pos 2)) };

    ghost agrees = { Prim.search rules };

    fn permits_clash(_old: i32) -> bool {
        false
    }

    // (s != 2)
    fn guard<'a>() -> Guard<'a> {
        Guard {
            code: b"\x07\x11\x00\x10\x00\x02",
        }
    }
}

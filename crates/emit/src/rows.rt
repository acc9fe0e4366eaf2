// The transitions of one automaton.
ghost use Rattle.std.specs.Prelude.{suc, List, ◌∷◌};
ghost use Rattle.system.specs.System.{Automaton, rows_from};
ghost use Rattle.view.specs.Shown.{RowsOf};
ghost use Rattle.emit.specs.Own.{own_rows};

use view::Rows;

// The rows of automaton `k`, which come first, and those of the automata after it.
pub fn split_own<'a>(rows: &Rows<'a>, k: u8) -> (Rows<'a>, Rows<'a>)
    ensures { (A : Automaton) (As : List Automaton) → RowsOf rows.now (rows_from k (A ∷ As)) → RowsOf result.0 (own_rows k A.transitions) × RowsOf result.1 (rows_from (suc k) As) }
{
    let mut rest = *rows;
    while let Some((row, others)) = rest.split_first()
        && row.owner == k
    {
        rest = others;
    }
    let own = Rows {
        file: rows.file,
        at: rows.at,
        left: rows.left - rest.left,
    };
    (own, rest)
}

// Transitions that stand in a file.
ghost use Rattle.std.specs.Prelude.{List};
ghost use Rattle.system.specs.System.{Row};
ghost use Rattle.view.specs.Walk.{RowsAt};

// The rows that are left of the transitions, by the place of the next one, as rows have no length in common. Copy, so
// that a walk leaves the rows as they were. Tried as one generic cursor with `Updates`: where the trait of its items has
// the file's lifetime its functions got no proof, and with the file as a parameter it is longer.
#[derive(Clone, Copy)]
pub struct Rows<'a> {
    pub file: &'a [u8],
    pub at: usize,
    pub left: u16,
    ghost stand: { ∥ ((rs : List Row) × RowsAt file.now at left rs) ∥₁ },
}

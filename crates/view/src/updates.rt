// Updates that stand in a file.
ghost use Rattle.std.specs.Prelude.{List};
ghost use Rattle.system.specs.System.{Update};
ghost use Rattle.view.specs.Walk.{UpdatesAt};

// The updates that are left of a row, by the place of the next one, as updates have no length in common.
#[derive(Clone, Copy)]
pub struct Updates<'a> {
    pub file: &'a [u8],
    pub at: usize,
    pub left: u8,
    ghost stand: { ∥ ((us : List Update) × UpdatesAt file.now at left us) ∥₁ },
}

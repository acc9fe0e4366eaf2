// Where the parts of an accepted file stand.
#[derive(Clone, Copy)]
pub struct Layout {
    pub events: u8,
    pub variables: u8,
    pub automata: u8,
    pub transitions: u16,
    // where each automaton's row begins, at most 12: no heap, and no vector of fixed room, which is not Copy as views are
    pub heads: [usize; 12],
    // where the first transition's row begins
    pub rows_at: usize,
}

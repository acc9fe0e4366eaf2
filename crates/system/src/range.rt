// A variable's range, start and marked range.
#[derive(Clone, Copy)]
pub struct Range {
    pub low: i16,
    pub high: i16,
    pub start: i16,
    pub marked_low: i16,
    pub marked_high: i16,
}

// An automaton as its text reads it.
use view::{Head, Rows};

// The number of an automaton, what stands before its transitions, and these.
#[derive(Clone, Copy)]
pub struct Automaton<'a> {
    pub number: u8,
    pub head: Head<'a>,
    pub rows: Rows<'a>,
}

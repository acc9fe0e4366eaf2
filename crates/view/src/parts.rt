// The parts of a system as they are read from its file.
use crate::updates::Updates;
use expr::{Guard, Term};
use system::Role;

// An automaton without its transitions. A location's mark is 1, or 0 where it has none.
#[derive(Clone, Copy)]
pub struct Head<'a> {
    pub role: Role,
    pub start: u8,
    pub marks: &'a [u8],
    pub alphabet: &'a [u8],
}

// A transition and the number of its automaton.
#[derive(Clone, Copy)]
pub struct Transition<'a> {
    pub owner: u8,
    pub from: u8,
    pub event: u8,
    pub to: u8,
    pub guard: Guard<'a>,
    pub updates: Updates<'a>,
}

// A variable, and the term whose value it is to take.
#[derive(Clone, Copy)]
pub struct Update<'a> {
    pub variable: u8,
    pub value: Term<'a>,
}

// Pieces of a model text, sent to any sink, and the parts of a system that they are made from.
#![tactic(auto)]

mod automaton;
mod loops;
mod names;
mod parts;
mod pieces;
mod rows;

pub use automaton::Automaton;
pub use loops::{
    AutomatonText, NumberText, TransitionText, put_automata, put_numbers, put_transitions,
};
pub use names::{Joining, Settling, put_name};
pub use parts::{head_of, is_in, kind_of, values_of};
pub use pieces::{begin_case, begin_definition, end_case, put_compared};
pub use rows::split_own;

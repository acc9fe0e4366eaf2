// Sets of the small numbers that events and locations have, and how they are told.
#![tactic(auto)]

mod collect;
mod numbers;

pub use collect::{marked, numbers_of};
pub use numbers::Numbers;

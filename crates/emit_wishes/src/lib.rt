// The wishes for each variable: what each automaton wishes, what the wishes come to, and how they settle.
#![tactic(auto)]

mod entries;
mod joins;
mod variables;
mod wishes;

pub use variables::{ValueSteps, VariableDefinitions};

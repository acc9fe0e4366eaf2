// The choices of automata: the definitions that say when each may be taken, and the steps that they lead to.
#![tactic(auto)]

mod definitions;
mod outside;
mod steps;

pub use definitions::ChoiceDefinitions;
pub use steps::ChoiceSteps;

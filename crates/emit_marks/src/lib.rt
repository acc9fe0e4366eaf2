// Controllability and marking: which transitions are open, which locations and values are marked.
#![tactic(auto, using(emit::proofs::Sent::texts))]

mod controlled;
mod events;
mod marks;
mod open;

pub use events::{EventAlways, EventDefinitions};
pub use marks::{LocationMarks, put_marked};

// An accepted system file, walked without checking it again.
#![tactic(auto)]

mod look;
mod parts;
mod rows;
mod step;
mod updates;
mod view;

pub use parts::{Head, Transition, Update};
pub use rows::Rows;
pub use updates::Updates;
pub use view::View;

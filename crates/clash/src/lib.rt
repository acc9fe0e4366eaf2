// Wishes for the next value of a variable, and the rules that join and settle them.
#![tactic(auto)]

mod equal_values;
mod forbid_clash;
mod keep_on_clash;
mod rule;
mod wish;

pub use equal_values::EqualValues;
pub use forbid_clash::ForbidClash;
pub use keep_on_clash::KeepOnClash;
pub use rule::{Rule, Settled, join_all};
pub use wish::{Status, Wish};

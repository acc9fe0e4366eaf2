// Guards and terms in prefix byte code.
#![tactic(auto)]

mod check;
mod checked;
pub mod code;
mod eval;
mod expression;
mod print;

pub use check::{Check, Checker, end_at};
pub use checked::{Guard, Term};
pub use expression::Expression;
pub use print::{Names, Numbered};

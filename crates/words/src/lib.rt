// Reading the words of a model text: a reader answers what stands at the head of a text, and the text behind it.
#![tactic(auto)]

mod expected;
mod names;
mod numbers;
mod operators;
mod word;

pub use expected::expect;
pub use names::{read_name, read_next_name};
pub use numbers::{read_minus, read_number, read_signed};
pub use operators::read_operator;
pub use word::read_word;

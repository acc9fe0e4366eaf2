// The model text: the words that it is made of. Its trees, its printing and its rules are in specs/.
#![tactic(auto)]

mod words;

pub use words::{
    Constraint, Double, Heading, Kind, Name, Operator, Phase, Single, TextFault, TextRule, Word,
};

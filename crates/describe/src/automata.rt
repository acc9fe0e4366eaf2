// Automata without their transitions.
use number_sets::{marked, numbers_of};
use std::fmt;
use system::Role;
use view::Head;

// By match, so that each role is sure to have a word.
fn role_name(role: Role) -> &'static str {
    match role {
        Role::Plant => "plant",
        Role::Specification => "specification",
    }
}

// An automaton, as `plant; locations 2; start 0; marked 0; alphabet 0..1`.
#[derive(Clone, Copy)]
pub struct HeadText<'a>(pub Head<'a>);

impl fmt::Display for HeadText<'_> {
    fn fmt<W: fmt::Write>(&self, f: &mut fmt::Formatter<W>) -> fmt::Result {
        let Head {
            role,
            start,
            marks,
            alphabet,
        } = self.0;
        write!(
            f,
            "{}; locations {}; start {start}; marked {}; alphabet {}",
            role_name(role),
            marks.len(),
            marked(marks),
            numbers_of(alphabet)
        )
    }
}

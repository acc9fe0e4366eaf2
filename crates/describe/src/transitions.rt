// Transitions, automaton by automaton, a line for each.
use crate::text::ExpressionText;
use std::fmt;
use view::{Rows, Transition, Update, Updates};

// Updates, as `; u0 := (u0 + 1)` for each.
#[derive(Clone, Copy)]
struct UpdatesText<'a>(Updates<'a>);

impl fmt::Display for UpdatesText<'_> {
    fn fmt<W: fmt::Write>(&self, f: &mut fmt::Formatter<W>) -> fmt::Result {
        for update in self.0 {
            let Update { variable, value } = update;
            write!(f, "; u{variable} := {}", ExpressionText(value))?;
        }
        Ok(())
    }
}

// A transition without its automaton, as `0 -> 1 on event 0 if TRUE; u0 := 1`.
#[derive(Clone, Copy)]
struct TransitionText<'a>(Transition<'a>);

impl fmt::Display for TransitionText<'_> {
    fn fmt<W: fmt::Write>(&self, f: &mut fmt::Formatter<W>) -> fmt::Result {
        let Transition {
            from,
            event,
            to,
            guard,
            updates,
            ..
        } = self.0;
        write!(
            f,
            "{from} -> {to} on event {event} if {}{}",
            ExpressionText(guard),
            UpdatesText(updates)
        )
    }
}

// The rows of the transitions. Each has its choice number, which counts under its automaton, whose rows stand together.
#[derive(Clone, Copy)]
pub struct RowsText<'a>(pub Rows<'a>);

impl fmt::Display for RowsText<'_> {
    fn fmt<W: fmt::Write>(&self, f: &mut fmt::Formatter<W>) -> fmt::Result {
        let mut owner = None;
        let mut choice: u16 = 0;
        for transition in self.0 {
            let automaton = transition.owner;
            if owner != Some(automaton) {
                writeln!(f, "  automaton {automaton}")?;
                owner = Some(automaton);
                choice = 0;
            }
            choice += 1;
            writeln!(f, "    {choice}: {}", TransitionText(transition))?;
        }
        Ok(())
    }
}

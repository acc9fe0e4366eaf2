// What a system file holds.
use crate::automata::HeadText;
use crate::transitions::RowsText;
use number_sets::Numbers;
use std::fmt;
use system::EventKind::{Controllable, Uncontrollable};
use system::Range;
use view::View;

fn put_events<W: fmt::Write>(f: &mut fmt::Formatter<W>, view: &View) -> fmt::Result {
    let controllable = Numbers::from_fn(|e| view.event(e) == Some(Controllable));
    let uncontrollable = Numbers::from_fn(|e| view.event(e) == Some(Uncontrollable));
    writeln!(f, "events: {}", view.layout.events)?;
    writeln!(f, "  controllable: {controllable}")?;
    writeln!(f, "  uncontrollable: {uncontrollable}")
}

// A variable, as `0..2, start 0, marked 0..0`.
#[derive(Clone, Copy)]
struct RangeText(Range);

impl fmt::Display for RangeText {
    fn fmt<W: fmt::Write>(&self, f: &mut fmt::Formatter<W>) -> fmt::Result {
        let Range {
            low,
            high,
            start,
            marked_low,
            marked_high,
        } = self.0;
        write!(
            f,
            "{low}..{high}, start {start}, marked {marked_low}..{marked_high}"
        )
    }
}

// How many parts of a kind there are, and a line for each, behind its name and number.
fn put_parts<W: fmt::Write, T: fmt::Display + Drop, P: Fn(u8) -> Option<T>>(
    f: &mut fmt::Formatter<W>,
    kind: &str,
    name: &str,
    count: u8,
    part: P,
) -> fmt::Result
    requires { P.IsAlwaysCallable part }
{
    writeln!(f, "{kind}: {count}")?;
    for k in 0..count {
        if let Some(part) = part(k) {
            writeln!(f, "  {name}{k}: {part}")?;
        }
    }
    Ok(())
}

fn put_transitions<W: fmt::Write>(f: &mut fmt::Formatter<W>, view: &View) -> fmt::Result {
    let count = view.layout.transitions;
    write!(f, "transitions: {count}\n{}", RowsText(view.rows()))
}

// The four sections of a file.
#[derive(Clone, Copy)]
pub struct Description<'a>(pub View<'a>);

impl fmt::Display for Description<'_> {
    fn fmt<W: fmt::Write>(&self, f: &mut fmt::Formatter<W>) -> fmt::Result {
        let view = &self.0;
        put_events(f, view)?;
        put_parts(f, "variables", "u", view.layout.variables, |i| {
            view.variable(i).map(RangeText)
        })?;
        put_parts(f, "automata", "", view.layout.automata, |k| {
            view.automaton(k).map(HeadText)
        })?;
        put_transitions(f, view)
    }
}

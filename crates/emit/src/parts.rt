// The parts of an accepted file by their numbers. Past the last one stands a part that says nothing:
// the definitions of the model name parts by number, and end in these defaults.
ghost use Rattle.std.specs.Prelude.{◌≡◌, slice_index_or};
ghost use Rattle.system.specs.Ranges.{variable_of};
ghost use Rattle.system.specs.declared.kinds.EventKind.TheVariants.{Controllable};
ghost use Rattle.view.specs.Shown.{system_of, HeadShows};
ghost use Rattle.translation.specs.Systems.{automaton, variable, is_in};

use system::{EventKind, Range, Role};
use view::{Head, View};

pub fn head_of<'a>(view: &View<'a>, k: u8) -> Head<'a>
    ensures { HeadShows result (automaton (system_of view.now) k) }
{
    view.automaton(k).unwrap_or(Head {
        role: Role::Plant,
        start: 0,
        marks: &[],
        alphabet: &[],
    })
}

pub fn values_of(view: &View, i: u8) -> Range
    ensures { variable_of result ≡ variable (system_of view.now) i }
{
    view.variable(i).unwrap_or(Range {
        low: 0,
        high: 0,
        start: 0,
        marked_low: 0,
        marked_high: 0,
    })
}

pub fn kind_of(view: &View, e: u8) -> EventKind
    ensures { result ≡ slice_index_or (system_of view.now).kinds e Controllable }
{
    view.event(e).unwrap_or(EventKind::Controllable)
}

// Whether an event is in an alphabet.
pub fn is_in(e: u8, alphabet: &[u8]) -> bool
    ensures { result ≡ is_in e alphabet.now }
{
    alphabet.iter().any(|x| e == *x)
}

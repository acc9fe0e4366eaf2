// The lines of the uncontrollable events.
ghost use Rattle.std.specs.Prelude.{◌≡◌, fold};
ghost use Rattle.view.specs.Shown.{system_of};
ghost use Rattle.emit.specs.Texts.{plants_text, event_text, event_always_text};

use crate::controlled::is_controlled;
use crate::open::{OpenDefinitions, PlantEntries, SpecificationLines};
use emit::{NumberText, begin_case, end_case, put_automata};
use model_text::{Name, Single};
use sinks::Sink;
use view::View;

// Whether every plant with the event is open on it.
fn put_plants<S: Sink>(s: &mut S, view: &View, e: u8)
    ensures { s.new ≡ fold S.Sink.step s.old (plants_text (system_of view.now) e) }
{
    begin_case(s, Name::One(Single::PlantsOpen, e as u16));
    put_automata(s, view, &PlantEntries { event: e });
    end_case(s, 1);
}

// What is defined for each uncontrollable event that a plant and a specification share.
#[derive(Drop)]
pub struct EventDefinitions;

impl NumberText for EventDefinitions {
    ghost text = { λ _ S e. event_text S e };

    fn put<S: Sink>(&self, s: &mut S, view: &View, e: u8) {
        if is_controlled(view, e) {
            put_automata(s, view, &OpenDefinitions { event: e });
            put_plants(s, view, e);
        }
    }
}

// What each specification has to allow of the event.
#[derive(Drop)]
pub struct EventAlways;

impl NumberText for EventAlways {
    ghost text = { λ _ S e. event_always_text S e };

    fn put<S: Sink>(&self, s: &mut S, view: &View, e: u8) {
        if is_controlled(view, e) {
            put_automata(s, view, &SpecificationLines { event: e });
        }
    }
}

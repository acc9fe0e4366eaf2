// Whether an automaton has an open transition on an event.
ghost use Rattle.std.specs.Prelude.{◌≡◌, fold};
ghost use Rattle.model_text.specs.declared.words.Single.TheVariants.{PlantsOpen};
ghost use Rattle.model_text.specs.declared.words.Double.TheVariants.{Open};
ghost use Rattle.model_text.specs.declared.words.Name.TheVariants as N;
ghost use Rattle.model_text.specs.declared.words.Constraint.TheVariants.{Always};
ghost use Rattle.model_text.specs.Lines.{constrain, line_text};
ghost use Rattle.translation.specs.Written.{is_at};
ghost use Rattle.translation.specs.Translate.{either};
ghost use Rattle.emit.specs.Texts.{open_entry, open_text, plant_entry, always_text};

use crate::controlled::is_with;
use emit::{
    Automaton, AutomatonText, TransitionText, begin_case, end_case, is_in, put_compared,
    put_transitions,
};
use expr::code::Order;
use expr::{Expression, Numbered};
use model_text::{Double, Name, Single};
use sinks::{Sink, put_text};
use system::Role;
use view::Transition;

// The name that says whether automaton `k` has an open transition on event `e`.
fn open_name(e: u8, k: u8) -> Name
    ensures { result ≡ N.Two Open e k }
{
    Name::Two(Double::Open, e as u16, k as u16)
}

// An entry for each transition on the event: where it begins, and its guard.
#[derive(Drop)]
struct OpenEntry {
    event: u8,
    automaton: u8,
}

impl TransitionText for OpenEntry {
    ghost text = { λ p _ t. open_entry p.event p.automaton t };

    fn put<S: Sink>(&self, s: &mut S, _choice: u16, t: &Transition) {
        if t.event == self.event {
            let location = Name::One(Single::Location, self.automaton as u16);
            put_text(s, b"(");
            put_compared(s, location, Order::Eq, t.from as u64);
            put_text(s, b" & ");
            t.guard.put(s, &Numbered);
            put_text(s, b") : 1; ");
        }
    }
}

// The line of each automaton with the event.
#[derive(Drop)]
pub struct OpenDefinitions {
    pub event: u8,
}

impl AutomatonText for OpenDefinitions {
    ghost text = { λ p k A. open_text p.event k A };

    fn put<S: Sink>(&self, s: &mut S, automaton: &Automaton) {
        let event = self.event;
        let k = automaton.number;
        if is_in(event, automaton.head.alphabet) {
            let entry = OpenEntry {
                event,
                automaton: k,
            };
            begin_case(s, open_name(event, k));
            put_transitions(s, &automaton.rows, &entry);
            end_case(s, 0);
        }
    }
}

// An entry for each plant with the event: 0 where it is shut.
#[derive(Drop)]
pub struct PlantEntries {
    pub event: u8,
}

impl AutomatonText for PlantEntries {
    ghost text = { λ p k A. plant_entry p.event k A };

    fn put<S: Sink>(&self, s: &mut S, automaton: &Automaton) {
        if is_with(Role::Plant, self.event, &automaton.head) {
            let open = open_name(self.event, automaton.number);
            put_compared(s, open, Order::Eq, 0);
            put_text(s, b" : 0; ");
        }
    }
}

// Wherever the plants are open on the event, the automaton is.
fn put_requirement<S: Sink>(s: &mut S, e: u8, k: u8)
    ensures { s.new ≡ fold S.Sink.step s.old (line_text (constrain Always (either (is_at (N.One PlantsOpen e) 0) (is_at (N.Two Open e k) 1)))) }
{
    put_text(s, b"SPEC AG (");
    put_compared(s, Name::One(Single::PlantsOpen, e as u16), Order::Eq, 0);
    put_text(s, b" | ");
    put_compared(s, open_name(e, k), Order::Eq, 1);
    put_text(s, b");\n");
}

// The line of each specification with the event.
#[derive(Drop)]
pub struct SpecificationLines {
    pub event: u8,
}

impl AutomatonText for SpecificationLines {
    ghost text = { λ p k A. always_text p.event k A };

    fn put<S: Sink>(&self, s: &mut S, automaton: &Automaton) {
        if is_with(Role::Specification, self.event, &automaton.head) {
            put_requirement(s, self.event, automaton.number);
        }
    }
}

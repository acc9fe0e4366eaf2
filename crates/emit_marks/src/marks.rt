// Which locations and values are marked.
ghost use Rattle.std.specs.Prelude.{◌≡◌, Bool, List, map, fold};
ghost use Rattle.sinks.specs.Text.{each};
ghost use Rattle.clash.specs.Rules.{ClashRule};
ghost use Rattle.system.specs.Encode.{mark_byte};
ghost use Rattle.view.specs.Shown.{system_of};
ghost use Rattle.translation.specs.Systems.{variable};
ghost use Rattle.emit.specs.Texts.{marks_text, unmarked_location, unmarked_value, marked_text};
ghost use Rattle.emit_marks.specs.Locations.{location_entry};

use emit::{
    Automaton, AutomatonText, NumberText, begin_case, end_case, put_automata, put_compared,
    put_name, put_numbers, values_of,
};
use expr::code::Order;
use model_text::{Name, Single};
use sinks::{Sink, put_text, put_value};
use view::View;

// An entry, 1 where the automaton is at the location, if the mark is 1.
fn put_location<S: Sink>(s: &mut S, k: u8, j: u64, mark: u8)
    ensures { (m : Bool) → mark ≡ mark_byte m → s.new ≡ fold S.Sink.step s.old (location_entry k j m) }
{
    if mark == 1 {
        put_compared(s, Name::One(Single::Location, k as u16), Order::Eq, j);
        put_text(s, b" : 1; ");
    }
}

// The entries of an automaton's locations.
fn put_locations<S: Sink>(s: &mut S, k: u8, marks: &[u8])
    ensures { (ms : List Bool) → marks.now ≡ map mark_byte ms → s.new ≡ fold S.Sink.step s.old (each (location_entry k) 0 ms) }
{
    for (j, mark) in marks.iter().enumerate() {
        put_location(s, k, j as u64, *mark);
    }
}

// The line of each automaton: whether its location is marked.
#[derive(Drop)]
pub struct LocationMarks;

impl AutomatonText for LocationMarks {
    ghost text = { λ _ k A. marks_text k A };

    fn put<S: Sink>(&self, s: &mut S, automaton: &Automaton) {
        let k = automaton.number;
        begin_case(s, Name::One(Single::LocationMarked, k as u16));
        put_locations(s, k, automaton.head.marks);
        end_case(s, 0);
    }
}

// An entry for each automaton: 0 where its location is not marked.
#[derive(Drop)]
struct LocationEntries;

impl AutomatonText for LocationEntries {
    ghost text = { λ _ k A. unmarked_location k A };

    fn put<S: Sink>(&self, s: &mut S, automaton: &Automaton) {
        let marked = Name::One(Single::LocationMarked, automaton.number as u16);
        put_compared(s, marked, Order::Eq, 0);
        put_text(s, b" : 0; ");
    }
}

// Two entries for each variable: 0 where its value is below or above the marked ones.
#[derive(Drop)]
struct ValueEntries;

impl NumberText for ValueEntries {
    ghost text = { λ _ S i. unmarked_value i (variable S i) };

    fn put<S: Sink>(&self, s: &mut S, view: &View, i: u8) {
        let range = values_of(view, i);
        put_text(s, b"(");
        put_name(s, Name::One(Single::Variable, i as u16));
        put_text(s, b" < ");
        put_value(s, range.marked_low);
        put_text(s, b") : 0; (");
        put_value(s, range.marked_high);
        put_text(s, b" < ");
        put_name(s, Name::One(Single::Variable, i as u16));
        put_text(s, b") : 0; ");
    }
}

// The line `mk`: whether every location and value is marked.
pub fn put_marked<S: Sink>(s: &mut S, view: &View)
    ensures { (rule : ClashRule) → s.new ≡ fold S.Sink.step s.old (marked_text (system_of view.now) rule) }
{
    begin_case(s, Name::Marked);
    put_automata(s, view, &LocationEntries);
    put_numbers(s, view, view.layout.variables, &ValueEntries);
    end_case(s, 1);
}

// The declarations of a text: its rule, and the ranges of its variables.
ghost use Rattle.std.specs.Prelude.{◌≡◌, pos, fold};
ghost use Rattle.std.specs.Fmt.{signed_decimal};
ghost use Rattle.view.specs.Shown.{system_of};
ghost use Rattle.model_text.specs.Lines.{range, line_text};
ghost use Rattle.translation.specs.Systems.{variable};
ghost use Rattle.emit.specs.Texts.{choice_range, location_range, value_range, declarations_text};

use clash::Rule;
use emit::{Automaton, AutomatonText, NumberText, put_automata, put_name, put_numbers, values_of};
use model_text::{Name, Single};
use sinks::{Sink, put_number, put_text};
use view::View;

// `7`, or `-7`. Beside `put_value` of sinks, which puts the sign with its parenthesis as one text.
fn put_signed<S: Sink>(s: &mut S, v: i16)
    ensures { s.new ≡ fold S.Sink.step s.old (signed_decimal v) }
{
    if v < 0 {
        put_text(s, b"-");
        put_number(s, v.unsigned_abs() as u64);
    } else {
        put_number(s, v as u64);
    }
}

// The line of a name that ranges from 0.
fn put_count_range<S: Sink>(s: &mut S, x: Name, last: u64)
    ensures { s.new ≡ fold S.Sink.step s.old (line_text (range x (pos 0) (pos last))) }
{
    put_name(s, x);
    put_text(s, b" : 0..");
    put_number(s, last);
    put_text(s, b";\n");
}

#[derive(Drop)]
struct ChoiceRanges;

impl AutomatonText for ChoiceRanges {
    ghost text = { λ _ k A. choice_range k A };

    fn put<S: Sink>(&self, s: &mut S, automaton: &Automaton) {
        let choice = Name::One(Single::Choice, automaton.number as u16);
        put_count_range(s, choice, automaton.rows.left as u64);
    }
}

#[derive(Drop)]
struct LocationRanges;

impl AutomatonText for LocationRanges {
    ghost text = { λ _ k A. location_range k A };

    fn put<S: Sink>(&self, s: &mut S, automaton: &Automaton) {
        let location = Name::One(Single::Location, automaton.number as u16);
        let last = automaton.head.marks.len().saturating_sub(1);
        put_count_range(s, location, last as u64);
    }
}

#[derive(Drop)]
struct ValueRanges;

impl NumberText for ValueRanges {
    ghost text = { λ _ S i. value_range i (variable S i) };

    fn put<S: Sink>(&self, s: &mut S, view: &View, i: u8) {
        let values = values_of(view, i);
        put_name(s, Name::One(Single::Variable, i as u16));
        put_text(s, b" : ");
        put_signed(s, values.low);
        put_text(s, b"..");
        put_signed(s, values.high);
        put_text(s, b";\n");
    }
}

// The lines up to the definitions.
pub fn put_declarations<S: Sink, R: Rule>(s: &mut S, view: &View)
    ensures { s.new ≡ fold S.Sink.step s.old (declarations_text (system_of view.now) R.Rule.rule) }
{
    put_text(s, b"-- rule ");
    put_number(s, R::code() as u64);
    put_text(s, b"\nMODULE main\nIVAR\nev : 0..");
    put_number(s, view.layout.events.saturating_sub(1) as u64);
    put_text(s, b";\n");
    put_automata(s, view, &ChoiceRanges);
    put_text(s, b"VAR\n");
    put_automata(s, view, &LocationRanges);
    put_numbers(s, view, view.layout.variables, &ValueRanges);
    put_text(s, b"DEFINE\n");
}

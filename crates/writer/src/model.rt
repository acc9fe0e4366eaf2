// The whole text of a model.
ghost use Rattle.std.specs.Prelude.{◌≡◌, fold};
ghost use Rattle.view.specs.Shown.{system_of};
ghost use Rattle.clash.specs.Rules.{ClashRule};
ghost use Rattle.emit.specs.Texts.{definitions_text, constraints_text, whole_text};

use crate::ranges::put_declarations;
use crate::starts::{LocationStarts, ValueStarts};
use clash::Rule;
use emit::{put_automata, put_numbers};
use emit_choices::{ChoiceDefinitions, ChoiceSteps};
use emit_marks::{EventAlways, EventDefinitions, LocationMarks, put_marked};
use emit_wishes::{ValueSteps, VariableDefinitions};
use sinks::{Sink, put_text};
use std::marker::PhantomData;
use view::View;

// The lines that define names.
fn put_definitions<S: Sink, R: Rule>(s: &mut S, view: &View)
    ensures { s.new ≡ fold S.Sink.step s.old (definitions_text (system_of view.now) R.Rule.rule) }
{
    put_automata(s, view, &ChoiceDefinitions);
    let variables = VariableDefinitions::<R> { rule: PhantomData };
    put_numbers(s, view, view.layout.variables, &variables);
    put_numbers(s, view, view.layout.events, &EventDefinitions);
    put_automata(s, view, &LocationMarks);
    put_marked(s, view);
}

// The lines after the definitions.
fn put_constraints<S: Sink>(s: &mut S, view: &View)
    ensures { (R : ClashRule) → s.new ≡ fold S.Sink.step s.old (constraints_text (system_of view.now) R) }
{
    put_automata(s, view, &LocationStarts);
    put_numbers(s, view, view.layout.variables, &ValueStarts);
    put_automata(s, view, &ChoiceSteps);
    put_numbers(s, view, view.layout.variables, &ValueSteps);
    put_numbers(s, view, view.layout.events, &EventAlways);
    put_text(s, b"SPEC AG EF (mk = 1);\n");
}

pub fn put_model<S: Sink, R: Rule>(s: &mut S, view: &View)
    ensures { s.new ≡ fold S.Sink.step s.old (whole_text (system_of view.now) R.Rule.rule) }
{
    put_declarations::<S, R>(s, view);
    put_definitions::<S, R>(s, view);
    put_constraints(s, view);
}

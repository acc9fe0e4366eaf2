// All that is defined for a variable, and its steps.
ghost use Rattle.emit.specs.Texts.{variable_text, value_step_text};

use crate::joins::put_settle;
use crate::wishes::Wishes;
use clash::Rule;
use emit::{NumberText, put_automata, put_name};
use model_text::{Name, Single};
use sinks::{Sink, put_text};
use std::marker::PhantomData;
use view::View;

#[derive(Drop)]
pub struct VariableDefinitions<R> {
    pub rule: PhantomData<R>,
}

impl<R: Rule> NumberText for VariableDefinitions<R> {
    ghost text = { λ _ S i. variable_text R.Rule.rule S i };

    fn put<S: Sink>(&self, s: &mut S, view: &View, i: u8) {
        let wishes = Wishes::<R> {
            variable: i,
            rule: PhantomData,
        };
        put_automata(s, view, &wishes);
        put_settle::<S, R>(s, i, view.layout.automata.saturating_sub(1));
    }
}

#[derive(Drop)]
pub struct ValueSteps;

impl NumberText for ValueSteps {
    ghost text = { λ _ _ i. value_step_text i };

    fn put<S: Sink>(&self, s: &mut S, _view: &View, i: u8) {
        put_text(s, b"TRANS ((next(");
        put_name(s, Name::One(Single::Variable, i as u16));
        put_text(s, b") = ");
        put_name(s, Name::One(Single::SettledValue, i as u16));
        put_text(s, b") & ");
        put_name(s, Name::One(Single::Permission, i as u16));
        put_text(s, b");\n");
    }
}

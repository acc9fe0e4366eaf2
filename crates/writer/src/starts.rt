// Where the automata and variables start.
ghost use Rattle.translation.specs.Systems.{variable};
ghost use Rattle.emit.specs.Texts.{start_text, value_start_text};

use emit::{Automaton, AutomatonText, NumberText, put_compared, put_name, values_of};
use expr::code::Order;
use model_text::{Name, Single};
use sinks::{Sink, put_text, put_value};
use view::View;

#[derive(Drop)]
pub struct LocationStarts;

impl AutomatonText for LocationStarts {
    ghost text = { λ _ k A. start_text k A };

    fn put<S: Sink>(&self, s: &mut S, automaton: &Automaton) {
        let location = Name::One(Single::Location, automaton.number as u16);
        put_text(s, b"INIT ");
        put_compared(s, location, Order::Eq, automaton.head.start as u64);
        put_text(s, b";\n");
    }
}

#[derive(Drop)]
pub struct ValueStarts;

impl NumberText for ValueStarts {
    ghost text = { λ _ S i. value_start_text i (variable S i) };

    fn put<S: Sink>(&self, s: &mut S, view: &View, i: u8) {
        let values = values_of(view, i);
        put_text(s, b"INIT (");
        put_name(s, Name::One(Single::Variable, i as u16));
        put_text(s, b" = ");
        put_value(s, values.start);
        put_text(s, b");\n");
    }
}

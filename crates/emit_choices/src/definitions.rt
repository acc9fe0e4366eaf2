// The definitions of an automaton's choices.
ghost use Rattle.std.specs.Prelude.{◌≡◌, fold};
ghost use Rattle.system.specs.System.{Row};
ghost use Rattle.view.specs.Shown.{TransitionShows};
ghost use Rattle.model_text.specs.Trees.{print};
ghost use Rattle.translation.specs.Translate.{taken};
ghost use Rattle.emit.specs.Texts.{stay_text, taken_text, choices_text};

use crate::outside::put_outside;
use emit::{
    Automaton, AutomatonText, TransitionText, begin_definition, put_compared, put_transitions,
};
use expr::code::Order;
use expr::{Expression, Numbered};
use model_text::{Double, Name, Single};
use sinks::{Sink, put_text};
use view::Transition;

// The automaton is where the transition begins, its event happens, and its guard holds.
fn put_taken<S: Sink>(s: &mut S, k: u8, t: &Transition)
    ensures { (r : Row) → TransitionShows t.now r → s.new ≡ fold S.Sink.step s.old (print (taken k r.transition)) }
{
    put_text(s, b"((");
    put_compared(
        s,
        Name::One(Single::Location, k as u16),
        Order::Eq,
        t.from as u64,
    );
    put_text(s, b" & ");
    put_compared(s, Name::Event, Order::Eq, t.event as u64);
    put_text(s, b") & ");
    t.guard.put(s, &Numbered);
    put_text(s, b")");
}

// Choice 0: the event is outside the alphabet.
fn put_stay<S: Sink>(s: &mut S, k: u8, alphabet: &[u8])
    ensures { s.new ≡ fold S.Sink.step s.old (stay_text k alphabet.now) }
{
    begin_definition(s, Name::Two(Double::Transition, k as u16, 0));
    put_outside(s, alphabet);
    put_text(s, b";\n");
}

#[derive(Drop)]
struct ChoiceDefinition {
    automaton: u8,
}

impl TransitionText for ChoiceDefinition {
    ghost text = { λ p j t. taken_text p.automaton j t };

    fn put<S: Sink>(&self, s: &mut S, choice: u16, t: &Transition) {
        begin_definition(
            s,
            Name::Two(Double::Transition, self.automaton as u16, choice),
        );
        put_taken(s, self.automaton, t);
        put_text(s, b";\n");
    }
}

#[derive(Drop)]
pub struct ChoiceDefinitions;

impl AutomatonText for ChoiceDefinitions {
    ghost text = { λ _ k A. choices_text k A };

    fn put<S: Sink>(&self, s: &mut S, automaton: &Automaton) {
        let k = automaton.number;
        put_stay(s, k, automaton.head.alphabet);
        put_transitions(s, &automaton.rows, &ChoiceDefinition { automaton: k });
    }
}

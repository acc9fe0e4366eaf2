// Where the choices of an automaton lead.
ghost use Rattle.std.specs.Prelude.{◌≡◌, ◌++◌, codes, fold};
ghost use Rattle.model_text.specs.declared.words.Single.TheVariants.{Location};
ghost use Rattle.model_text.specs.declared.words.Name.TheVariants as N;
ghost use Rattle.translation.specs.Written.{name};
ghost use Rattle.emit.specs.Texts.{step_text, leads, lead_text, leads_text};
ghost use Rattle.emit_choices.specs.Further.{leads_to};

use emit::{Automaton, AutomatonText, TransitionText, put_compared, put_name, put_transitions};
use expr::code::Order;
use model_text::{Double, Name, Single};
use sinks::{Sink, put_number, put_text};
use view::Transition;

// The line of a choice, up to where it leads.
fn begin_step<S: Sink>(s: &mut S, k: u8, choice: u16)
    ensures { s.new ≡ fold S.Sink.step s.old (leads_to k choice) }
{
    put_text(s, b"TRANS (");
    put_compared(
        s,
        Name::One(Single::Choice, k as u16),
        Order::Ne,
        choice as u64,
    );
    put_text(s, b" | (");
    put_name(s, Name::Two(Double::Transition, k as u16, choice));
    put_text(s, b" & (next(");
    put_name(s, Name::One(Single::Location, k as u16));
    put_text(s, b") = ");
}

// Choice 0 leads to where the automaton is.
fn put_stay<S: Sink>(s: &mut S, k: u8)
    ensures { s.new ≡ fold S.Sink.step s.old (step_text (leads k 0 (name (N.One Location k)))) }
{
    begin_step(s, k, 0);
    put_name(s, Name::One(Single::Location, k as u16));
    put_text(s, b")));\n");
}

#[derive(Drop)]
struct ChoiceStep {
    automaton: u8,
}

impl TransitionText for ChoiceStep {
    ghost text = { λ p j t. lead_text p.automaton j t };

    fn put<S: Sink>(&self, s: &mut S, choice: u16, t: &Transition) {
        begin_step(s, self.automaton, choice);
        put_number(s, t.to as u64);
        put_text(s, b")));\n");
    }
}

#[derive(Drop)]
pub struct ChoiceSteps;

impl AutomatonText for ChoiceSteps {
    ghost text = { λ _ k A. leads_text k A };

    fn put<S: Sink>(&self, s: &mut S, automaton: &Automaton) {
        let k = automaton.number;
        put_stay(s, k);
        put_transitions(s, &automaton.rows, &ChoiceStep { automaton: k });
    }
}

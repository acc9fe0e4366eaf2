// The wishes of one automaton for one variable.
ghost use Rattle.std.specs.Prelude.{◌≡◌, fold};
ghost use Rattle.system.specs.System.{Automaton as Owner};
ghost use Rattle.model_text.specs.Trees.{choose};
ghost use Rattle.translation.specs.Cases.{wish_case};
ghost use Rattle.emit.specs.Own.{AutomatonShows};
ghost use Rattle.emit.specs.Texts.{definition_text, wishes_text};
ghost use Rattle.emit_wishes.specs.Sought.{wished};

use crate::entries::{WishEntry, WishPart};
use crate::joins::put_join;
use clash::Rule;
use emit::{Automaton, AutomatonText, begin_case, end_case, put_transitions};
use model_text::{Double, Name};
use sinks::Sink;
use std::marker::PhantomData;

// The definition of a name as what the automaton wishes of variable `i`.
fn put_wish<S: Sink>(s: &mut S, x: Name, part: WishPart, i: u8, automaton: &Automaton)
    ensures { (A : Owner) → AutomatonShows automaton.now A → s.new ≡ fold S.Sink.step s.old (definition_text x (choose (wish_case (wished part) i automaton.now.number 1 A.transitions))) }
{
    let entry = WishEntry {
        part,
        variable: i,
        automaton: automaton.number,
    };
    begin_case(s, x);
    put_transitions(s, &automaton.rows, &entry);
    end_case(s, 0);
}

// Whether each choice updates the variable, and to which value; joined with the wishes before.
#[derive(Drop)]
pub struct Wishes<R> {
    pub variable: u8,
    pub rule: PhantomData<R>,
}

impl<R: Rule> AutomatonText for Wishes<R> {
    ghost text = { λ p k A. wishes_text R.Rule.rule p.variable k A };

    fn put<S: Sink>(&self, s: &mut S, automaton: &Automaton) {
        let i = self.variable;
        let k = automaton.number;
        let status = Name::Two(Double::WishStatus, i as u16, k as u16);
        let value = Name::Two(Double::WishValue, i as u16, k as u16);
        put_wish(s, status, WishPart::Status, i, automaton);
        put_wish(s, value, WishPart::Value, i, automaton);
        put_join::<S, R>(s, i, k);
    }
}

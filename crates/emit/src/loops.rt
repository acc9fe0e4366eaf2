// Texts of one thing after another: each loop is written once, for every text that goes by numbers.
// One trait for the three would need a second one for what is read, and there would be three loops still.
ghost use Rattle.std.specs.Prelude.{◌≡◌, ℕ, ◌+◌, List, length, fold};
ghost use Rattle.sinks.specs.Text.{each};
ghost use Rattle.system.specs.System.{System, Automaton as Owner, Transition, Row};
ghost use Rattle.view.specs.Shown.{system_of, RowsOf, TransitionShows};
ghost use Rattle.model_text.specs.Lists.{up_to};
ghost use Rattle.translation.specs.Systems.{automaton};
ghost use Rattle.emit.specs.Own.{own_rows, AutomatonShows};

use crate::automaton::Automaton;
use crate::parts::head_of;
use crate::rows::split_own;
use sinks::Sink;
use view::{Rows, View};

// A text for each number of a system's events, variables or automata.
pub trait NumberText {
    ghost text: { Self → System → ℕ → List ℕ };

    fn put<S: Sink>(&self, s: &mut S, view: &View, n: u8)
        ensures { s.new ≡ fold S.Sink.step s.old (text self.now (system_of view.now) n) };
}

// The texts of the numbers below `count`.
pub fn put_numbers<S: Sink, P: NumberText>(s: &mut S, view: &View, count: u8, piece: &P)
    ensures { s.new ≡ fold S.Sink.step s.old (up_to count (P.NumberText.text piece.now (system_of view.now))) }
{
    for n in 0..count {
        piece.put(s, view, n);
    }
}

// A text for an automaton, by its number.
pub trait AutomatonText {
    ghost text: { Self → ℕ → Owner → List ℕ };

    fn put<S: Sink>(&self, s: &mut S, automaton: &Automaton)
        ensures { (A : Owner) → AutomatonShows automaton.now A → s.new ≡ fold S.Sink.step s.old (text self.now automaton.now.number A) };
}

// The texts of all automata.
pub fn put_automata<S: Sink, P: AutomatonText>(s: &mut S, view: &View, piece: &P)
    ensures { let sys = system_of view.now in s.new ≡ fold S.Sink.step s.old (up_to (length sys.automata) (λ k. P.AutomatonText.text piece.now k (automaton sys k))) }
{
    let mut rest = view.rows();
    for number in 0..view.layout.automata {
        let (rows, others) = split_own(&rest, number);
        let head = head_of(view, number);
        piece.put(s, &Automaton { number, head, rows });
        rest = others;
    }
}

// A text for a transition, by its choice number.
pub trait TransitionText {
    ghost text: { Self → ℕ → Transition → List ℕ };

    fn put<S: Sink>(&self, s: &mut S, choice: u16, t: &view::Transition)
        ensures { (r : Row) → TransitionShows t.now r → s.new ≡ fold S.Sink.step s.old (text self.now choice r.transition) };
}

// The texts of an automaton's transitions.
pub fn put_transitions<S: Sink, P: TransitionText>(s: &mut S, rows: &Rows, piece: &P)
    ensures { (k : ℕ) (ts : List Transition) → RowsOf rows.now (own_rows k ts) → s.new ≡ fold S.Sink.step s.old (each (λ j. P.TransitionText.text piece.now (j + 1)) 0 ts) }
{
    for (j, t) in (0..rows.left).zip(*rows) {
        piece.put(s, j + 1, &t);
    }
}

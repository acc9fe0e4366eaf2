// The entries of a wish's cases: one for each choice that updates the variable.
ghost use Rattle.std.specs.Prelude.{◌≡◌, List, MatchOption, ◌++◌, codes, fold};
ghost use Rattle.std.proofs.Math.Option.{none};
ghost use Rattle.expr.specs.Expr.{Expr, term};
ghost use Rattle.expr.specs.Coded.{Coded};
ghost use Rattle.system.specs.System.{Update};
ghost use Rattle.view.specs.Shown.{UpdatesOf};
ghost use Rattle.model_text.specs.declared.words.Single.TheVariants.{Choice};
ghost use Rattle.model_text.specs.declared.words.Name.TheVariants as N;
ghost use Rattle.model_text.specs.Trees.{print};
ghost use Rattle.translation.specs.Systems.{sought};
ghost use Rattle.translation.specs.Written.{is_at};
ghost use Rattle.emit.specs.Texts.{wish_entry};
ghost use Rattle.emit_wishes.specs.Sought.{Found, wished};

use emit::{TransitionText, put_compared};
use expr::code::Order;
use expr::{Expression, Numbered, Term};
use model_text::{Name, Single};
use sinks::{Sink, put_number, put_text};
use view::{Transition, Updates};

// The two parts of an automaton's wish for a variable: whether it has one, and for which value.
#[derive(Clone, Copy)]
pub enum WishPart {
    Status,
    Value,
}

// The term of the first update of the variable.
fn update_of<'a>(updates: &Updates<'a>, i: u8) -> Option<Term<'a>>
    ensures { (us : List Update) → UpdatesOf updates.now us → MatchOption result (sought i us ≡ none) (λ x. Found x.code.now (sought i us)) }
{
    // Tried by `find`: the goal stayed open that ties what it took from the iterator to the list of the updates.
    for update in *updates {
        if i == update.variable {
            return Some(update.value);
        }
    }
    None
}

// `(c0 = 1) : `
fn begin_entry<S: Sink>(s: &mut S, k: u8, choice: u16)
    ensures { s.new ≡ fold S.Sink.step s.old (print (is_at (N.One Choice k) choice) ++ codes " : ") }
{
    put_compared(
        s,
        Name::One(Single::Choice, k as u16),
        Order::Eq,
        choice as u64,
    );
    put_text(s, b" : ");
}

// What is wished where the term is the update's. A switch of two: two types of entry would repeat all but this.
fn put_wished<S: Sink>(s: &mut S, part: WishPart, value: &Term)
    ensures { (e : Expr term) → Coded value.now.code.now e → s.new ≡ fold S.Sink.step s.old (print (wished part e)) }
{
    match part {
        WishPart::Status => put_number(s, 1),
        WishPart::Value => value.put(s, &Numbered),
    }
}

// The entry of a choice that updates the variable.
#[derive(Drop)]
pub struct WishEntry {
    pub part: WishPart,
    pub variable: u8,
    pub automaton: u8,
}

impl TransitionText for WishEntry {
    ghost text = { λ p j t. wish_entry (wished p.part) p.variable p.automaton j (sought p.variable t.updates) };

    fn put<S: Sink>(&self, s: &mut S, choice: u16, t: &Transition) {
        if let Some(value) = update_of(&t.updates, self.variable) {
            begin_entry(s, self.automaton, choice);
            put_wished(s, self.part, &value);
            put_text(s, b"; ");
        }
    }
}

// What the wishes for a variable come to, and how they settle, by the expressions of a clash rule.
ghost use Rattle.std.specs.Prelude.{◌≡◌, fold};
ghost use Rattle.expr.specs.Coded.{Coded};
ghost use Rattle.expr.specs.Expr.{Expr};
ghost use Rattle.expr.specs.Text.{text_of};
ghost use Rattle.model_text.specs.Words.{name_text};
ghost use Rattle.emit.specs.Texts.{join_text, settle_text};
ghost use Rattle.emit_wishes.specs.Lines.{defined};

use clash::Rule;
use emit::{Joining, Settling, begin_definition, put_name};
use expr::{Expression, Names};
use model_text::{Double, Name, Single};
use sinks::{Sink, put_text};

// A name that stands for another.
fn put_copy<S: Sink>(s: &mut S, x: Name, y: Name)
    ensures { s.new ≡ fold S.Sink.step s.old (defined x (name_text y)) }
{
    begin_definition(s, x);
    put_name(s, y);
    put_text(s, b";\n");
}

// A name that stands for a guard or a term.
fn put_expression<S: Sink, N: Names, E: Expression>(s: &mut S, x: Name, body: &E, names: &N)
    ensures { (e : Expr E.kind) → Coded (E.code body.now) e → s.new ≡ fold S.Sink.step s.old (defined x (text_of (N.Names.name names.now) e)) }
{
    begin_definition(s, x);
    body.put(s, names);
    put_text(s, b";\n");
}

// What the wishes for variable `i` come to, up to automaton `k`. The two are no struct: a join is named by `k - 1`.
pub fn put_join<S: Sink, R: Rule>(s: &mut S, i: u8, k: u8)
    ensures { s.new ≡ fold S.Sink.step s.old (join_text R.Rule.rule i k) }
{
    let status = Name::Two(Double::JoinedStatus, i as u16, k as u16);
    let value = Name::Two(Double::JoinedValue, i as u16, k as u16);
    if k == 0 {
        put_copy(s, status, Name::Two(Double::WishStatus, i as u16, 0));
        put_copy(s, value, Name::Two(Double::WishValue, i as u16, 0));
        return;
    }
    let names = Joining {
        variable: i,
        automaton: k - 1,
    };
    put_expression(s, status, &R::joined_status(), &names);
    put_expression(s, value, &R::joined_value(), &names);
}

// How the wishes for variable `i` settle, where automaton `k` is the last.
pub fn put_settle<S: Sink, R: Rule>(s: &mut S, i: u8, k: u8)
    ensures { s.new ≡ fold S.Sink.step s.old (settle_text R.Rule.rule i k) }
{
    let names = Settling {
        variable: i,
        automaton: k,
    };
    put_expression(
        s,
        Name::One(Single::SettledValue, i as u16),
        &R::settled_value(),
        &names,
    );
    put_expression(
        s,
        Name::One(Single::Permission, i as u16),
        &R::permission(),
        &names,
    );
}

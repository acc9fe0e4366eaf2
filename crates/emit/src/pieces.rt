// Small expressions.
ghost use Rattle.std.specs.Prelude.{◌≡◌, ◌++◌, codes, fold};
ghost use Rattle.model_text.specs.Trees.{print};
ghost use Rattle.model_text.specs.Words.{name_text};
ghost use Rattle.translation.specs.Written.{compared};
ghost use Rattle.emit.specs.Texts.{last_text};

use crate::names::put_name;
use expr::code::Order;
use model_text::Name;
use sinks::{Sink, put_number, put_text};

// A name beside a number, as `(s0 = 3)`.
pub fn put_compared<S: Sink>(s: &mut S, x: Name, order: Order, n: u64)
    ensures { s.new ≡ fold S.Sink.step s.old (print (compared x order n)) }
{
    put_text(s, b"(");
    put_name(s, x);
    put_text(s, order.text());
    put_number(s, n);
    put_text(s, b")");
}

// What begins the definition of a name.
pub fn begin_definition<S: Sink>(s: &mut S, x: Name)
    ensures { s.new ≡ fold S.Sink.step s.old (name_text x ++ codes " := ") }
{
    put_name(s, x);
    put_text(s, b" := ");
}

// What begins the definition of a name as a case, before its entries.
// One function that takes the entries as a closure would need a contract at each closure.
pub fn begin_case<S: Sink>(s: &mut S, x: Name)
    ensures { s.new ≡ fold S.Sink.step s.old (name_text x ++ codes " := (case ") }
{
    begin_definition(s, x);
    put_text(s, b"(case ");
}

// What ends it: the number where no entry holds.
pub fn end_case<S: Sink>(s: &mut S, last: u64)
    ensures { s.new ≡ fold S.Sink.step s.old (last_text last ++ codes ";\n") }
{
    put_text(s, b"TRUE : ");
    put_number(s, last);
    put_text(s, b"; esac);\n");
}

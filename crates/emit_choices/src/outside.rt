// That an event is outside an alphabet.
ghost use Rattle.std.specs.Prelude.{◌≡◌, ◌<◌, length, replicate, fold};
ghost use Rattle.std.specs.List.{flat_map};
ghost use Rattle.model_text.specs.Trees.{print};
ghost use Rattle.translation.specs.Translate.{outside};
ghost use Rattle.emit_choices.specs.Further.{further};

use emit::put_compared;
use expr::code::Order;
use model_text::Name;
use sinks::{Sink, put_text};

// So many opening parentheses.
fn put_opening<S: Sink>(s: &mut S, n: usize)
    ensures { s.new ≡ fold S.Sink.step s.old (replicate n 40) }
{
    for _ in 0..n {
        s.put(b'(');
    }
}

// The events after the first, each with its closing parenthesis.
fn put_further<S: Sink>(s: &mut S, events: &[u8])
    ensures { s.new ≡ fold S.Sink.step s.old (flat_map further events.now) }
{
    for e in events {
        put_text(s, b" & ");
        put_compared(s, Name::Event, Order::Ne, *e as u64);
        put_text(s, b")");
    }
}

// A test for each event, bracketed to the left.
pub fn put_outside<S: Sink>(s: &mut S, alphabet: &[u8])
    ensures { s.new ≡ fold S.Sink.step s.old (print (outside alphabet.now)) }
{
    let Some((first, others)) = alphabet.split_first() else {
        put_text(s, b"TRUE");
        return;
    };
    put_opening(s, others.len());
    put_compared(s, Name::Event, Order::Ne, *first as u64);
    put_further(s, others);
}

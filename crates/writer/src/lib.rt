// From a system file to its model text.
#![tactic(auto, using(emit::proofs::Sent::texts))]

ghost use Rattle.std.specs.Prelude.{take, IfOk};
ghost use Rattle.sinks.specs.Post.{Written};
ghost use Rattle.writer.specs.Answered.{file_text, Answered, SaysSystem};

use clash::Rule;
use model::put_model;
use scan::Fault;
use sinks::{Document, Sink, write_of};
use std::marker::PhantomData;
use view::View;

mod model;
mod ranges;
mod starts;

// The text of an accepted file under a rule.
#[derive(Drop)]
struct ModelText<'a, R> {
    view: View<'a>,
    rule: PhantomData<R>,
}

impl<R: Rule> Document for ModelText<'_, R> {
    ghost shown = { λ d. file_text R.Rule.rule d.view.file.now };

    fn emit<S: Sink>(&self, s: &mut S) {
        put_model::<S, R>(s, &self.view);
    }
}

// The text of an accepted file into the front of `out`.
fn write_view<R: Rule>(view: View, out: &mut [u8]) -> Result<usize, usize>
    ensures { Written (file_text R.Rule.rule view.entry.file.now) out.old out.new result }
{
    write_of(
        &ModelText::<R> {
            view,
            rule: PhantomData,
        },
        out,
    )
}

// The model text of a file under a rule, into the front of `out`, and its length. A file that is
// refused, and a text that does not fit, changes no byte.
pub fn write<R: Rule>(file: &[u8], out: &mut [u8]) -> Result<usize, Fault>
    ensures exact { Answered R.Rule.rule file.now out.old out.new result }
    ensures means { IfOk result (λ n. SaysSystem R.Rule.rule file.now (take n out.new)) }
{
    let view = View::check(file)?;
    write_view::<R>(view, out).map_err(Fault::Buffer)
}

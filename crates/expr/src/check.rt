// Whether the bytes behind a length are an expression, and else which byte is refused.
ghost use Rattle.std.specs.Prelude.{◌≡◌, ◌+◌, ◌-◌, ◌<◌, ◌≤◌, length, IfOk, MatchResult, slice_index};
ghost use Rattle.scan.specs.Scan.{run};
ghost use Rattle.scan.specs.Says.{Says};
ghost use Rattle.expr.specs.Scan.{parse, sized};
ghost use Rattle.expr.specs.Ends.{Stops, Until, Lengthy, Ended, At};

use crate::checked::{Guard, Term};
use crate::code::{GuardCode, TermCode};
use crate::expression::Expression;
use scan::{Fault, FileFault, FileRule, Source};

// An expression in a file: where its length reaches to, and how many variables it may use.
#[derive(Clone, Copy)]
pub struct Checker<'a> {
    source: Source<'a>,
    end: usize,
    variables: u8,
}

impl Checker<'_> {
    // The next byte of the expression.
    fn next_byte(self, at: usize) -> Result<u8, Fault>
        requires { 0 < at }
        ensures { let s = self.entry.source.file.now in MatchResult result (λ b. (at < self.entry.end) × (at < length s) × (b ≡ slice_index s at)) (λ f. Stops s self.entry.source.origin at self.entry.end f) }
    {
        if at < self.end {
            self.source.byte(at)
        } else {
            Err(self.source.broken(FileRule::Expression, at - 1))
        }
    }

    // Where the expression ends, if it was read up to `stop`.
    fn whole(self, stop: usize) -> Result<usize, Fault>
        requires { (0 < stop) × ((stop ≤ self.end) × (stop ≤ length self.source.file.now)) }
        ensures { Ended self.entry.source.file.now stop self.entry.end self.entry.source.origin result }
    {
        if stop == self.end {
            Ok(self.end)
        } else if self.end <= self.source.file.len() {
            Err(self.source.broken(FileRule::Expression, self.end - 1))
        } else {
            let length = self.source.file.len();
            Err(self.source.fault(FileFault::EndsTooSoon, length))
        }
    }
}

// An expression that can be checked in a file. Apart from `Expression`: an impl takes over the clauses only if the
// trait names the file's lifetime.
pub trait Check<'a>: Expression {
    // Where an expression ends that begins at `at` and is at most `depth` deep.
    fn end(checker: Checker<'a>, at: usize, depth: u8) -> Result<usize, Fault>
        requires { (0 < at) × (at ≤ checker.end) }
        ensures says { Says (Until checker.entry.end) result (run (parse checker.entry.variables checker.entry.source.origin depth Self.kind (checker.entry.end - at)) checker.entry.source.file.now at) }
        ensures within { IfOk result (λ stop. (at < stop) × (stop ≤ checker.entry.end) × (stop ≤ length checker.entry.source.file.now)) };
}

impl<'a> Check<'a> for Guard<'a> {
    #[cycle(end)]
    fn end(checker: Checker<'a>, at: usize, depth: u8) -> Result<usize, Fault> {
        let b = checker.next_byte(at)?;
        if depth == 0 {
            return Err(checker.source.broken(FileRule::Expression, at));
        }
        match GuardCode::of(b) {
            Some(GuardCode::Truth(_)) => Ok(at + 1),
            Some(GuardCode::Not) => Guard::end(checker, at + 1, depth - 1),
            Some(GuardCode::Join(_)) => {
                let next = Guard::end(checker, at + 1, depth - 1)?;
                Guard::end(checker, next, depth - 1)
            }
            Some(GuardCode::Test(_)) => {
                let next = Term::end(checker, at + 1, depth - 1)?;
                Term::end(checker, next, depth - 1)
            }
            None => Err(checker.source.broken(FileRule::Expression, at)),
        }
    }
}

impl<'a> Check<'a> for Term<'a> {
    #[cycle(end)]
    fn end(checker: Checker<'a>, at: usize, depth: u8) -> Result<usize, Fault> {
        let b = checker.next_byte(at)?;
        if depth == 0 {
            return Err(checker.source.broken(FileRule::Expression, at));
        }
        match TermCode::of(b) {
            Some(TermCode::Literal) => {
                checker.next_byte(at + 1)?;
                checker.next_byte(at + 2)?;
                Ok(at + 3)
            }
            Some(TermCode::Variable) => {
                let v = checker.next_byte(at + 1)?;
                if v < checker.variables {
                    Ok(at + 2)
                } else {
                    Err(checker.source.broken(FileRule::KnownNumber, at + 1))
                }
            }
            Some(TermCode::Sum(_)) => {
                let next = Term::end(checker, at + 1, depth - 1)?;
                Term::end(checker, next, depth - 1)
            }
            Some(TermCode::Case) => {
                let first = Guard::end(checker, at + 1, depth - 1)?;
                let next = Term::end(checker, first, depth - 1)?;
                Term::end(checker, next, depth - 1)
            }
            None => Err(checker.source.broken(FileRule::Expression, at)),
        }
    }
}

// Where an expression's length reaches to, from the length at `at`, which is not 0.
fn length_at(source: Source, at: usize) -> Result<usize, Fault>
    ensures { Lengthy source.entry.file.now at source.entry.origin result }
{
    let length = source.byte(at)?;
    if length == 0 {
        return Err(source.broken(FileRule::Expression, at));
    }
    Ok(at + 1 + length as usize)
}

// Where the expression ends whose length stands at `at`.
pub fn end_at<'a, E: Check<'a>>(
    source: Source<'a>,
    at: usize,
    variables: u8,
) -> Result<usize, Fault>
    ensures says { Says At result (run (sized variables source.entry.origin E.kind) source.entry.file.now at) }
    ensures within { IfOk result (λ end. (at < end) × (end ≤ length source.entry.file.now)) }
{
    let end = length_at(source, at)?;
    let checker = Checker {
        source,
        end,
        variables,
    };
    let stop = E::end(checker, at + 1, 16)?;
    checker.whole(stop)
}

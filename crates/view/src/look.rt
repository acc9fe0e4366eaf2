// The events, variables and automata of an accepted file, by their numbers, and its transitions.
ghost use Rattle.std.specs.Prelude.{◌≡◌, ◌+◌, ◌<◌, ◌≤◌, length, ℤ, FitsSigned};
ghost use Rattle.std.specs.Int.{w16};
ghost use Rattle.std.specs.Result.{MatchResult};
ghost use Rattle.scan.specs.Says.{Says};
ghost use Rattle.scan.specs.Stands.{Stands};
ghost use Rattle.expr.specs.Expr.{value_bytes};
ghost use Rattle.system.specs.System.{Automaton, Variable, rows as rows_of};
ghost use Rattle.system.specs.Formed.{VariableFormed};
ghost use Rattle.system.specs.Encode.{variable_bytes, head_bytes};
ghost use Rattle.system.specs.Heads.{HeadFits};
ghost use Rattle.system.specs.Ranges.{variable_of};
ghost use Rattle.system.specs.Scan.{answer};
ghost use Rattle.system.specs.Verdict.{StandsFor, RefusalHolds};
ghost use Rattle.view.specs.Shown.{system_of, Element, HeadShows, RowsOf};

use crate::parts::Head;
use crate::rows::Rows;
use crate::view::View;
use scan::Fault;
use system::{EventKind, Range, Role};

// The value whose two bytes begin at `at`. As `literal` of expr; its contract speaks of a system's values.
fn value_at(file: &[u8], at: usize) -> i16
    requires { at + 1 < length file.now }
    ensures { (v : ℤ) → FitsSigned w16 v → Stands file.now at (value_bytes v) → result ≡ v }
{
    i16::from_be_bytes([file[at], file[at + 1]])
}

// The variable whose ten bytes begin at `at`.
fn range_at(file: &[u8], at: usize) -> Range
    requires { at + 10 ≤ length file.now }
    ensures { (v : Variable) → VariableFormed v → Stands file.now at (variable_bytes v) → variable_of result ≡ v }
{
    Range {
        low: value_at(file, at),
        high: value_at(file, at + 2),
        start: value_at(file, at + 4),
        marked_low: value_at(file, at + 6),
        marked_high: value_at(file, at + 8),
    }
}

// The automaton whose row begins at `at`. Of these parts system reads two itself while it checks a file.
fn head_at(file: &[u8], at: usize) -> Head<'_>
    requires { HeadFits file.now at }
    ensures { (A : Automaton) → Stands file.now at (head_bytes A) → HeadShows result A }
{
    let size_at = at + 3 + file[at + 1] as usize;
    let end = size_at + 1 + file[size_at] as usize;
    Head {
        role: Role::from(file[at]),
        start: file[at + 2],
        marks: &file[at + 3..size_at],
        alphabet: &file[size_at + 1..end],
    }
}

impl<'a> View<'a> {
    // Checks a file: the view of its system, or where it is refused.
    pub fn check(file: &'a [u8]) -> Result<View<'a>, Fault>
        ensures exact { Says (λ v S _. (v.file ≡ file.entry) × (system_of v ≡ S)) result (answer file.now) }
        ensures means { MatchResult result (λ v. StandsFor file.now (system_of v)) (λ f. RefusalHolds file.now f) }
    {
        let layout = system::check(file)?;
        Ok(View { file, layout })
    }

    // The kind of an event.
    pub fn event(&self, e: u8) -> Option<EventKind>
        ensures { Element (λ x k. x ≡ k) (system_of self.now).kinds e result }
    {
        if e >= self.layout.events {
            return None;
        }
        Some(EventKind::from(self.file[e as usize + 1]))
    }

    // The values of a variable.
    pub fn variable(&self, i: u8) -> Option<Range>
        ensures { Element (λ x v. variable_of x ≡ v) (system_of self.now).variables i result }
    {
        if i >= self.layout.variables {
            return None;
        }
        let at = self.layout.events as usize + 2 + 10 * i as usize;
        Some(range_at(self.file, at))
    }

    // An automaton without its transitions.
    pub fn automaton(&self, k: u8) -> Option<Head<'a>>
        ensures { Element HeadShows (system_of self.now).automata k result }
    {
        if k >= self.layout.automata {
            return None;
        }
        Some(head_at(self.file, self.layout.heads[k as usize]))
    }

    // The transitions, automaton by automaton.
    pub fn rows(&self) -> Rows<'a>
        ensures { RowsOf result (rows_of (system_of self.now)) }
    {
        Rows {
            file: self.file,
            at: self.layout.rows_at,
            left: self.layout.transitions,
        }
    }
}

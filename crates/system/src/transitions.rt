// Section 4: the transitions.
ghost use Rattle.std.specs.Prelude.{◌≡◌, ◌+◌, ◌<◌, ◌≤◌, List, length, IfOk};
ghost use Rattle.scan.specs.Scan.{run, and_then, pair};
ghost use Rattle.scan.specs.Says.{Says, Next};
ghost use Rattle.scan.specs.Stands.{Stands};
ghost use Rattle.system.specs.System.{Automaton};
ghost use Rattle.system.specs.Encode.{head_bytes};
ghost use Rattle.system.specs.Heads.{HeadsAt};
ghost use Rattle.system.specs.Found.{HeadsKnown, RowsFound};
ghost use Rattle.system.specs.Scan.{updates as update_scan, event_in, transition, origin, few_rows, transitions as transition_section};

use crate::automata::{Heads, check_rising};
use crate::heads::Head;
use crate::origin::{count_of, row_after};
use expr::{Guard, Term, end_at};
use scan::{Fault, FileRule, Section, Source};

// A transition's row: where it is read, the automaton that it is of, and the numbers of events and variables.
#[derive(Clone, Copy)]
struct Row<'a> {
    source: Source<'a>,
    head: Head<'a>,
    events: u8,
    variables: u8,
}

impl Row<'_> {
    // An event of the automaton's alphabet.
    fn check_event(self, at: usize) -> Result<u8, Fault>
        ensures says { (A : Automaton) → Stands self.entry.head.file.now self.entry.head.at (head_bytes A) → Says (Next at) result (run (event_in self.entry.source.origin self.entry.events A.alphabet) self.entry.source.file.now at) }
        ensures within { IfOk result (λ e. at < length self.entry.source.file.now) }
    {
        let e = self.source.number(at, self.events)?;
        if self.head.alphabet().contains(&e) {
            Ok(e)
        } else {
            Err(self.source.broken(FileRule::InAlphabet, at))
        }
    }

    // The updates: where they end.
    fn check_updates(self, at: usize) -> Result<usize, Fault>
        ensures says { Says (λ stop us end. stop ≡ end) result (run (update_scan self.entry.source.origin self.entry.variables) self.entry.source.file.now at) }
        ensures within { IfOk result (λ stop. stop ≤ length self.entry.source.file.now) }
    {
        let updates = self.source.count(at, 0, 12)?;
        let mut floor = 0;
        let mut end = at + 1;
        for _ in 0..updates {
            let v = check_rising(self.source, end, self.variables, floor)?;
            floor = v as u16 + 1;
            end = end_at::<Term>(self.source, end + 1, self.variables)?;
        }
        Ok(end)
    }

    // The row after its automaton's number: where it ends.
    fn check(self, at: usize) -> Result<usize, Fault>
        ensures says { (A : Automaton) → Stands self.entry.head.file.now self.entry.head.at (head_bytes A) → Says (λ stop t end. stop ≡ end) result (run (transition self.entry.source.origin self.entry.events self.entry.variables A) self.entry.source.file.now at) }
        ensures within { IfOk result (λ stop. stop ≤ length self.entry.source.file.now) }
    {
        let locations = self.head.locations();
        self.source.number(at, locations)?;
        self.check_event(at + 1)?;
        self.source.number(at + 2, locations)?;
        let next = end_at::<Guard>(self.source, at + 3, self.variables)?;
        self.check_updates(next)
    }
}

// How many rows there are, at most 512.
fn check_count(file: &[u8], at: usize) -> Result<u16, Fault>
    ensures says { Says (Next (at + 1)) result (run (and_then (pair (origin Section.Transitions 0)) (few_rows (origin Section.Transitions 0))) file.now at) }
    ensures within { IfOk result (λ n. (n ≤ 512) × (at + 2 ≤ length file.now)) }
{
    let origin = count_of(Section::Transitions);
    let source = Source { file, origin };
    let rows = source.two_bytes(at)?;
    if rows <= 512 {
        Ok(rows)
    } else {
        Err(source.broken(FileRule::CountLimits, at + 1))
    }
}

// How many transitions there are, and where their rows begin and end.
#[derive(Clone, Copy)]
pub struct Rows {
    pub count: u16,
    pub begin: usize,
    pub end: usize,
}

// The transitions' rows, whose automata's numbers do not fall.
pub fn check_rows(file: &[u8], events: u8, variables: u8, heads: &Heads) -> Result<Rows, Fault>
    requires { HeadsKnown file.now heads.now }
    ensures says { (As : List Automaton) → length As ≡ heads.now.count → HeadsAt file.now heads.now.rows As → Says (RowsFound heads.now.end) result (run (transition_section events variables As) file.now heads.now.end) }
    ensures within { IfOk result (λ x. (x.count ≤ 512) × (x.end ≤ length file.now)) }
{
    let count = check_count(file, heads.end)?;
    let begin = heads.end + 2;
    let mut floor = 0;
    let mut end = begin;
    for k in 0..count {
        let origin = row_after(Section::Transitions, k);
        let source = Source { file, origin };
        let owner = check_rising(source, end, heads.count, floor)?;
        floor = owner as u16;
        let at = heads.rows[owner as usize];
        let row = Row {
            source,
            head: Head { file, at },
            events,
            variables,
        };
        end = row.check(end + 1)?;
    }
    Ok(Rows { count, begin, end })
}

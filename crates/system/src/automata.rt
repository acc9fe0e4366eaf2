// Section 3: the automata without their transitions.
ghost use Rattle.std.specs.Prelude.{◌≡◌, ◌+◌, ◌<◌, ◌≤◌, [], length, IfOk, OnOk};
ghost use Rattle.scan.specs.Scan.{run, collect};
ghost use Rattle.scan.specs.Says.{Says, Next};
ghost use Rattle.system.specs.Scan.{mark, rising, bound, head_row, heads as automaton_section};
ghost use Rattle.system.specs.Heads.{BytesEach};
ghost use Rattle.system.specs.Found.{HeadsFound};

use crate::origin::{count_of, row_after};
use scan::{Fault, FileRule, Section, Source};

// The marks of `locations` locations.
fn check_marks(source: Source, at: usize, locations: u8) -> Result<(), Fault>
    requires { at ≤ length source.file.now }
    ensures says { Says (λ _ ms end. BytesEach at locations ms end) result (run (collect locations (λ _. mark source.entry.origin) []) source.entry.file.now at) }
    ensures within { OnOk result (at + locations ≤ length source.entry.file.now) }
{
    for k in 0..locations {
        source.zero_or_one(at + k as usize)?;
    }
    Ok(())
}

// The number of one of `n` things, not below `floor`.
pub fn check_rising(source: Source, at: usize, n: u8, floor: u16) -> Result<u8, Fault>
    ensures says { Says (Next at) result (run (rising source.entry.origin n floor) source.entry.file.now at) }
    ensures within { IfOk result (λ x. (at < length source.entry.file.now) × (x < n) × (floor ≤ x)) }
{
    let x = source.number(at, n)?;
    if floor <= x as u16 {
        Ok(x)
    } else {
        Err(source.broken(FileRule::RisingOrder, at))
    }
}

// An alphabet of `size` events.
fn check_alphabet(source: Source, at: usize, size: u8, events: u8) -> Result<(), Fault>
    requires { at ≤ length source.file.now }
    ensures says { Says (λ _ es end. BytesEach at size es end) result (run (collect size (λ before. rising source.entry.origin events (bound before)) []) source.entry.file.now at) }
    ensures within { OnOk result (at + size ≤ length source.entry.file.now) }
{
    let mut floor = 0;
    for k in 0..size {
        let e = check_rising(source, at + k as usize, events, floor)?;
        floor = e as u16 + 1;
    }
    Ok(())
}

// An automaton's row: where it ends.
fn check_head(source: Source, at: usize, events: u8) -> Result<usize, Fault>
    ensures says { Says (λ stop A end. stop ≡ end) result (run (head_row events source.entry.origin) source.entry.file.now at) }
    ensures within { IfOk result (λ stop. stop ≤ length source.entry.file.now) }
{
    source.zero_or_one(at)?;
    let locations = source.count(at + 1, 1, 64)?;
    source.number(at + 2, locations)?;
    check_marks(source, at + 3, locations)?;
    let next = at + 3 + locations as usize;
    let size = source.count(next, 1, 24)?;
    check_alphabet(source, next + 1, size, events)?;
    Ok(next + 1 + size as usize)
}

// Where the automata's rows begin, and where the last one ends. At most 12 rows, as in a layout.
#[derive(Clone, Copy)]
pub struct Heads {
    pub count: u8,
    pub rows: [usize; 12],
    pub end: usize,
}

// The automata's rows.
pub fn check_heads(file: &[u8], at: usize, events: u8) -> Result<Heads, Fault>
    ensures says { Says (HeadsFound file.now) result (run (automaton_section events) file.now at) }
    ensures within { IfOk result (λ h. (h.count ≤ 12) × (h.end ≤ length file.now)) }
{
    let origin = count_of(Section::Automata);
    let count = Source { file, origin }.count(at, 1, 12)?;
    let mut rows = [0; 12];
    let mut end = at + 1;
    for k in 0..count {
        rows[k as usize] = end;
        let origin = row_after(Section::Automata, k as u16);
        end = check_head(Source { file, origin }, end, events)?;
    }
    Ok(Heads { count, rows, end })
}

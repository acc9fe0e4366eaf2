// Section 1: the events' kinds.
ghost use Rattle.std.specs.Prelude.{◌≡◌, ◌+◌, ◌≤◌, length, IfOk};
ghost use Rattle.scan.specs.Scan.{run};
ghost use Rattle.scan.specs.Says.{Says};
ghost use Rattle.system.specs.Scan.{events as event_section};

use crate::origin::{count_of, row_after};
use scan::{Fault, Section, Source};

// How many events there are; their kinds end after as many bytes.
pub fn check_events(file: &[u8]) -> Result<u8, Fault>
    ensures says { Says (λ n ks end. (length ks ≡ n) × (end ≡ n + 1)) result (run event_section file.now 0) }
    ensures within { IfOk result (λ n. (n ≤ 64) × (n + 1 ≤ length file.now)) }
{
    let origin = count_of(Section::Events);
    let events = Source { file, origin }.count(0, 1, 64)?;
    for k in 0..events {
        let origin = row_after(Section::Events, k as u16);
        Source { file, origin }.zero_or_one(k as usize + 1)?;
    }
    Ok(events)
}

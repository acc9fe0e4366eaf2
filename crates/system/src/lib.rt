// The system file: events, bounded variables, automata and their transitions.
#![tactic(auto)]

ghost use Rattle.std.specs.Result.{MatchResult};
ghost use Rattle.scan.specs.Says.{Says};
ghost use Rattle.system.specs.System.{System};
ghost use Rattle.system.specs.Scan.{answer};
ghost use Rattle.system.specs.Shows.{Shows};
ghost use Rattle.system.specs.Verdict.{StandsFor, RefusalHolds};

mod automata;
mod events;
mod heads;
mod kinds;
mod layout;
mod origin;
mod range;
mod transitions;
mod variables;

use automata::check_heads;
use events::check_events;
pub use kinds::{EventKind, Role};
pub use layout::Layout;
pub use range::Range;
use scan::{Fault, FileFault, Origin, Section, Source};
use transitions::check_rows;
use variables::check_variables;

// Whether a file is a system file, read in one pass forward: where its parts stand, or where it is refused.
pub fn check(file: &[u8]) -> Result<Layout, Fault>
    ensures exact { Says (λ l S _. Shows file.now l S) result (answer file.now) }
    ensures means { MatchResult result (λ _. (S : System) × StandsFor file.now S) (λ f. RefusalHolds file.now f) }
{
    let events = check_events(file)?;
    let at = events as usize + 1;
    let variables = check_variables(file, at)?;
    let heads = check_heads(file, at + 1 + 10 * variables as usize, events)?;
    let rows = check_rows(file, events, variables, &heads)?;
    if rows.end < file.len() {
        let origin = Origin {
            section: Section::Transitions,
            row: rows.count,
        };
        let source = Source { file, origin };
        return Err(source.fault(FileFault::BytesFollow, rows.end));
    }
    Ok(Layout {
        events,
        variables,
        automata: heads.count,
        transitions: rows.count,
        heads: heads.rows,
        rows_at: rows.begin,
    })
}

// What is printed for a file.
ghost use Rattle.std.specs.Prelude.{◌≡◌, ◌++◌, IfOk, codes};
ghost use Rattle.report.specs.Lines.{refused_line};
ghost use Rattle.model.specs.Page.{page};

use clash::KeepOnClash;
use report::Refused;
use scan::Fault;
use std::alloc::{AllocError, Global};
use writer::write;

// The line of a refusal.
fn refusal_line(heap: Global, fault: Fault) -> Result<Vec<u8>, AllocError>
    ensures { IfOk result (λ v. v.items ≡ refused_line fault ++ codes "\n") }
{
    Ok(format!(in heap; "{}\n", Refused(fault))?.into_bytes())
}

// The text of a file, or the line of its refusal; a text of more than 65,536 bytes is refused.
pub fn page_of(heap: Global, file: &[u8]) -> Result<Vec<u8>, AllocError>
    ensures { IfOk result (λ v. v.items ≡ page file.now) }
{
    let mut out = vec![in heap; 0u8; 65536]?;
    match write::<KeepOnClash>(file, out.as_mut_slice()) {
        Ok(length) => {
            out.truncate(length);
            Ok(out)
        }
        Err(fault) => refusal_line(heap, fault),
    }
}

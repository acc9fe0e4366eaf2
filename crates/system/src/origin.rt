// Where rows stand.
ghost use Rattle.std.specs.Prelude.{◌≡◌, suc, ◌<◌};
ghost use Rattle.system.specs.Scan.{origin};

use scan::{Origin, Section};

// The row after `before` others of a section.
pub fn row_after(section: Section, before: u16) -> Origin
    requires { before < 512 }
    ensures { result ≡ origin section (suc before) }
{
    Origin {
        section,
        row: before + 1,
    }
}

// A section's count.
pub fn count_of(section: Section) -> Origin
    ensures { result ≡ origin section 0 }
{
    Origin { section, row: 0 }
}

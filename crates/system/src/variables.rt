// Section 2: the variables' values.
ghost use Rattle.std.specs.Prelude.{◌≡◌, ◌+◌, ◌*◌, ◌≤◌, ◌&&◌, length, IfOk, OnOk, int_le};
ghost use Rattle.scan.specs.Scan.{run};
ghost use Rattle.scan.specs.Says.{Says};
ghost use Rattle.system.specs.Scan.{value as value_scan, variable_row, in_order, variables as variable_section};
ghost use Rattle.system.specs.Ranges.{variable_of, ValueAt, VariablesAt};

use crate::Range;
use crate::origin::{count_of, row_after};
use scan::{Fault, FileRule, Section, Source};

// A value of two bytes.
fn check_value(source: Source, at: usize) -> Result<i16, Fault>
    ensures says { Says (ValueAt at) result (run (value_scan source.entry.origin) source.entry.file.now at) }
    ensures within { IfOk result (λ v. at + 2 ≤ length source.entry.file.now) }
{
    Ok(source.two_bytes(at)?.cast_signed())
}

// Whether `a`, `b` and `c` do not fall, and `c` is not above `d`.
fn ordered(a: i16, b: i16, c: i16, d: i16) -> bool
    ensures { result ≡ (int_le a b && (int_le b c && int_le c d)) }
{
    a <= b && b <= c && c <= d
}

fn between(low: i16, x: i16, high: i16) -> bool
    ensures { result ≡ (int_le low x && int_le x high) }
{
    (low..=high).contains(&x)
}

// Whether the values keep their rule.
fn in_order(r: Range) -> bool
    ensures { result ≡ in_order (variable_of r) }
{
    ordered(-1000, r.low, r.high, 1000)
        && between(r.low, r.start, r.high)
        && ordered(r.low, r.marked_low, r.marked_high, r.high)
}

// A variable's row of ten bytes.
fn check_variable(source: Source, at: usize) -> Result<(), Fault>
    ensures says { Says (λ _ v end. end ≡ at + 10) result (run (variable_row source.entry.origin) source.entry.file.now at) }
    ensures within { OnOk result (at + 10 ≤ length source.entry.file.now) }
{
    let low = check_value(source, at)?;
    let high = check_value(source, at + 2)?;
    let start = check_value(source, at + 4)?;
    let marked_low = check_value(source, at + 6)?;
    let marked_high = check_value(source, at + 8)?;
    let range = Range {
        low,
        high,
        start,
        marked_low,
        marked_high,
    };
    if in_order(range) {
        Ok(())
    } else {
        Err(source.broken(FileRule::VariableValues, at + 9))
    }
}

// How many variables there are; each takes ten bytes.
pub fn check_variables(file: &[u8], at: usize) -> Result<u8, Fault>
    requires { at ≤ length file.now }
    ensures says { Says (VariablesAt at) result (run variable_section file.now at) }
    ensures within { IfOk result (λ n. (n ≤ 12) × (at + 1 + 10 * n ≤ length file.now)) }
{
    let origin = count_of(Section::Variables);
    let variables = Source { file, origin }.count(at, 0, 12)?;
    for k in 0..variables {
        let origin = row_after(Section::Variables, k as u16);
        check_variable(Source { file, origin }, at + 1 + 10 * k as usize)?;
    }
    Ok(variables)
}

// Numbers in decimal.
ghost use Rattle.std.specs.Prelude.{◌≡◌, ◌≤◌, length, All};
ghost use Rattle.std.specs.Str.Parse.{digits_value};
ghost use Rattle.words.specs.Digits.{Digit, Run};
ghost use Rattle.words.specs.Forms.{numbers, signeds, minuses};
ghost use Rattle.words.specs.Readings.{Reads};

use crate::expected::expect;

// The digits at the head of a text, and what follows them.
fn split_digits(text: &[u8]) -> (&[u8], &[u8])
    ensures { Run text.now result.0.now result.1.now }
{
    let end = text.iter().position(|b| !b.is_ascii_digit());
    text.split_at(end.unwrap_or(text.len()))
}

// The number that up to ten digits spell. Summed by a loop: `from_utf8` and `parse` took more than twice as long.
fn value_of(digits: &[u8]) -> u64
    requires digits { All Digit digits.now }
    requires few { length digits.now ≤ 10 }
    ensures { result ≡ digits_value 10 digits.now }
{
    let mut value: u64 = 0;
    for b in digits {
        value = value * 10 + u64::from(*b - b'0');
    }
    value
}

// A number up to `max`, with no further digit behind it.
pub fn read_number(text: &[u8], max: u32) -> Option<(u32, &[u8])>
    ensures { Reads (numbers max) text.now result }
{
    let (digits, rest) = split_digits(text);
    if digits.is_empty() || digits.len() > 10 {
        return None;
    }
    if digits[0] == b'0' && digits.len() > 1 {
        return None;
    }
    let value = value_of(digits);
    if value > max as u64 {
        return None;
    }
    Some((value as u32, rest))
}

// `7` or `-7`, with no further digit behind it.
pub fn read_signed(text: &[u8], max: u32) -> Option<(i32, &[u8])>
    ensures { Reads (signeds max) text.now result }
{
    let most = max.min(i32::MAX as u32);
    if let Some(behind) = expect(text, b"-") {
        let (n, rest) = read_number(behind, most)?;
        if n == 0 {
            return None;
        }
        return Some((-(n as i32), rest));
    }
    let (n, rest) = read_number(text, most)?;
    Some((n as i32, rest))
}

// Behind `(-`: a number above 0 and at most 32768, and a closing parenthesis.
pub fn read_minus(text: &[u8]) -> Option<(u32, &[u8])>
    ensures { Reads minuses text.now result }
{
    let (n, rest) = read_number(text, 32768)?;
    if n == 0 {
        return None;
    }
    Some((n, expect(rest, b")")?))
}

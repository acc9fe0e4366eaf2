// Reading a file forward: the refusals with their places, and the smallest readers.
#![tactic(auto)]

ghost use Rattle.std.specs.Prelude.{◌≡◌, ◌+◌, ◌<◌, ◌≤◌, ℕ, Bool, true, length, IfOk, MatchResult, slice_index};
ghost use Rattle.scan.specs.Faults.{fault_at};
ghost use Rattle.scan.specs.Scan.{run, tested, counted, numbered, zero_or_one, pair};
ghost use Rattle.scan.specs.Says.{Says, Next};

mod numbers;
mod refusal;

pub use refusal::{Fault, FileFault, FileRule, Origin, Place, Section};

// A file, and the section and row that a refusal names. The place is passed beside it, since it moves with each read.
#[derive(Clone, Copy)]
pub struct Source<'a> {
    pub file: &'a [u8],
    pub origin: Origin,
}

impl Source<'_> {
    pub fn fault(self, wrong: FileFault, byte: usize) -> Fault
        ensures { result ≡ fault_at wrong self.entry.origin byte }
    {
        let Origin { section, row } = self.origin;
        Fault::File(wrong, Place { section, row, byte })
    }

    // The refusal of a byte that breaks a rule.
    pub fn broken(self, rule: FileRule, byte: usize) -> Fault
        ensures { result ≡ fault_at (FileFault.Breaks rule) self.entry.origin byte }
    {
        self.fault(FileFault::Breaks(rule), byte)
    }

    // The byte at `at`, or the refusal of a file that ends before it.
    pub fn byte(self, at: usize) -> Result<u8, Fault>
        ensures { MatchResult result (λ b. (at < length self.entry.file.now) × (b ≡ slice_index self.entry.file.now at)) (λ f. (length self.entry.file.now ≤ at) × (f ≡ fault_at FileFault.EndsTooSoon self.entry.origin at)) }
    {
        self.file
            .get(at)
            .copied()
            .ok_or(self.fault(FileFault::EndsTooSoon, at))
    }

    // The byte at `at`, which breaks a rule where it fails a test.
    fn tested<F: Fn(u8) -> bool>(self, at: usize, rule: FileRule, test: F) -> Result<u8, Fault>
        requires { F.IsAlwaysCallable test }
        ensures says { (p : ℕ → Bool) → ((b : ℕ) (r : Bool) → b < 256 → F.post test b r → p b ≡ r) → Says (Next at) result (run (tested self.entry.origin rule p) self.entry.file.now at) }
        ensures within { IfOk result (λ b. (at < length self.entry.file.now) × F.post test b true) }
    {
        let b = self.byte(at)?;
        if test(b) {
            Ok(b)
        } else {
            Err(self.broken(rule, at))
        }
    }

    // A count from `low` to `high`.
    pub fn count(self, at: usize, low: u8, high: u8) -> Result<u8, Fault>
        ensures says { Says (Next at) result (run (counted self.entry.origin low high) self.entry.file.now at) }
        ensures within { IfOk result (λ b. (at < length self.entry.file.now) × (low ≤ b) × (b ≤ high)) }
    {
        self.tested(at, FileRule::CountLimits, |b| low <= b && b <= high)
    }

    // The number of one of `n` things.
    pub fn number(self, at: usize, n: u8) -> Result<u8, Fault>
        ensures says { Says (Next at) result (run (numbered self.entry.origin n) self.entry.file.now at) }
        ensures within { IfOk result (λ b. (at < length self.entry.file.now) × (b < n)) }
    {
        self.tested(at, FileRule::KnownNumber, |b| b < n)
    }

    // A byte that is 0 or 1.
    pub fn zero_or_one(self, at: usize) -> Result<u8, Fault>
        ensures says { Says (Next at) result (run (zero_or_one self.entry.origin) self.entry.file.now at) }
        ensures within { IfOk result (λ b. (at < length self.entry.file.now) × (b < 2)) }
    {
        self.tested(at, FileRule::ZeroOrOne, |b| b < 2)
    }

    // Two bytes, the high one first.
    pub fn two_bytes(self, at: usize) -> Result<u16, Fault>
        ensures says { Says (Next (at + 1)) result (run (pair self.entry.origin) self.entry.file.now at) }
        ensures within { IfOk result (λ b. at + 1 < length self.entry.file.now) }
    {
        let high = self.byte(at)?;
        let low = self.byte(at + 1)?;
        Ok(u16::from_be_bytes([high, low]))
    }
}

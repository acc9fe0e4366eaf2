// Sets of the small numbers that events and locations have.
ghost use Rattle.std.specs.Prelude.{◌≡◌, ℕ, ◌<◌, false, ◌&&◌, ◌||◌, ◌==◌, Some, nat_lt};
ghost use Rattle.number_sets.specs.Sets.{holds, first, last};
ghost use Rattle.number_sets.specs.Text.{text};

use std::fmt;

// A set of numbers below 64: a flag for each, and no heap.
#[derive(Clone, Copy, Debug, PartialEq, Eq)]
pub struct Numbers {
    has: [bool; 64],
}

impl Numbers {
    pub fn none() -> Numbers
        ensures { (k : ℕ) → holds result k ≡ false }
    {
        Numbers { has: [false; 64] }
    }

    // Those that pass a test.
    pub fn from_fn<F: Fn(u8) -> bool>(test: F) -> Numbers
        requires { F.IsAlwaysCallable test }
        ensures { (k : ℕ) → k < 64 → F.post test k (holds result k) }
    {
        let mut numbers = Numbers::none();
        for n in 0..64 {
            if test(n) {
                numbers.insert(n);
            }
        }
        numbers
    }

    // Adds a number. One that is not below 64 is left out.
    pub fn insert(&mut self, n: u8)
        ensures { (k : ℕ) → holds self.new k ≡ (holds self.old k || (k == n && nat_lt n 64)) }
    {
        if n < 64 {
            self.has[n as usize] = true;
        }
    }

    pub fn contains(&self, n: u8) -> bool
        ensures { result ≡ holds self.now n }
    {
        n < 64 && self.has[n as usize]
    }

    // Whether a range of numbers begins with `n`.
    fn begins(&self, n: u8) -> bool
        ensures { result ≡ first self.now n }
    {
        self.contains(n) && (n == 0 || !self.contains(n - 1))
    }

    // Whether a range of numbers ends with `n`.
    fn ends(&self, n: u8) -> bool
        ensures { result ≡ last self.now n }
    {
        self.contains(n) && (n >= 63 || !self.contains(n + 1))
    }
}

// Ranges and single numbers, as `0..3, 5`.
impl fmt::Display for Numbers {
    ghost output = { λ s. Some (text s) };

    fn fmt<W: fmt::Write>(&self, f: &mut fmt::Formatter<W>) -> fmt::Result {
        let mut empty = true;
        for n in 0..64 {
            if self.begins(n) {
                let separator = if empty { "" } else { ", " };
                write!(f, "{separator}{n}")?;
                empty = false;
            } else if self.ends(n) {
                write!(f, "..{n}")?;
            }
        }
        if empty { f.write_str("none") } else { Ok(()) }
    }
}

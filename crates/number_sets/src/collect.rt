// Sets made from the bytes of a file.
ghost use Rattle.std.specs.Prelude.{nat_eq, slice_index};
ghost use Rattle.number_sets.specs.Sets.{Collects, among};

use crate::numbers::Numbers;

// The locations whose mark is 1.
pub fn marked(marks: &[u8]) -> Numbers
    ensures { Collects result (λ k. nat_eq (slice_index marks.now k) 1) }
{
    Numbers::from_fn(|k| marks.get(k as usize) == Some(&1))
}

// The events of an alphabet.
pub fn numbers_of(alphabet: &[u8]) -> Numbers
    ensures { Collects result (among alphabet.now) }
{
    // One pass over the events; `from_fn` would search the alphabet 64 times.
    let mut numbers = Numbers::none();
    for event in alphabet {
        numbers.insert(*event);
    }
    numbers
}

//! Values of keys in a slice, each at the number that a perfect hash gives its key: no key is kept.
ghost use Rattle.std.specs.Prelude.{◌≡◌, ◌<◌, length, IfSome, slice_index};
ghost use Rattle.perfect_hash.specs.Parts.{number_of};
ghost use Rattle.perfect_hash.specs.Perfect.{IsMinimalPerfect};
ghost use Rattle.example_callers.specs.Numbered.{AreAtNumbers};

use perfect_hash::{KeyHash, PerfectHash};

/// Writes each value at the number of its key.
///
/// # Conditions
/// The perfect hash is of these keys; there are as many values, and as much room.
pub fn place_values<H: KeyHash<u64>>(
    numbers: &PerfectHash<H>,
    keys: &[u64],
    values: &[u64],
    placed: &mut [u64],
)
    requires perfect { IsMinimalPerfect (number_of H.hash numbers.now) keys.now }
    requires values { length values.now ≡ length keys.now }
    requires placed { length placed.old ≡ length keys.now }
    ensures { AreAtNumbers (number_of H.hash numbers.now) keys.now values.now placed.new }
{
    for i in 0..keys.len() {
        if let Some(number) = numbers.get(&keys[i]) {
            placed[number] = values[i];
        }
    }
}

//! Items that are copied.
ghost use Rattle.std.specs.Prelude.{◌≡◌, length};

/// Replaces the items of `to` by the items of `from`: words that a section gets, for example.
///
/// # Conditions
/// Both have the same number of items.
/// # Cost
/// One pass over the items (evident from the code). Nothing is allocated.
///
/// ```
/// copy_items(part, words);   // part: the words
/// ```
pub fn copy_items<T: Copy>(to: &mut [T], from: &[T])
    requires { length to.old ≡ length from.now }
    ensures { to.new ≡ from.now }
{
    let len = from.len();
    // A loop over single items would be compiled to a call of C's `memcpy`, and the archive for C calls nothing.
    for pair in 0..len / 2 {
        to[2 * pair] = from[2 * pair];
        to[2 * pair + 1] = from[2 * pair + 1];
    }
    if len % 2 == 1 {
        to[len - 1] = from[len - 1];
    }
}

//! The order of the numbers of a text.
ghost use Rattle.std.specs.Prelude.{◌≡◌};
ghost use Rattle.program_base.specs.Order.{fall_line, may_follow};

use crate::text::digits::decimal;
use crate::text::lines::first_line;

/// Whether a number may follow the one before it, if there is one: where it is not less, and with `strict` not the same
/// either.
fn may_follow(strict: bool, before: Option<u64>, number: u64) -> bool
    ensures { result ≡ may_follow strict before number }
{
    match before {
        None => true,
        Some(before) => {
            if strict {
                before < number
            } else {
                before <= number
            }
        }
    }
}

/// The first line, the first being 0, whose number is less than the number of the line with a number before it, or with
/// `strict` the same; `None` where there is no such line. Lines that have no number are passed over.
///
/// # Cost
/// One pass over the text (evident from the code).
///
/// ```
/// first_fall(b"3\n\n1\n".as_slice(), false);   // Some(2)
/// first_fall(b"3\n3\n".as_slice(), false);     // None
/// first_fall(b"3\n3\n".as_slice(), true);      // Some(1)
/// ```
pub fn first_fall(text: &[u8], strict: bool) -> Option<usize>
    ensures { result ≡ fall_line strict text.now }
{
    let mut rest = text;
    let mut before = None;
    let mut at = 0;
    while let Some((line, after)) = first_line(rest) {
        if let Some(number) = decimal(line) {
            if !may_follow(strict, before, number) {
                return Some(at);
            }
            before = Some(number);
        }
        rest = after;
        at += 1;
    }
    None
}

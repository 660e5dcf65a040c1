//! A cursor is set to the first number of its sequence, and moves on.
ghost use Rattle.std.specs.Prelude.{◌≡◌, ◌≢◌, ◌↔◌, ◌⊎◌, ℕ, List};
ghost use Rattle.elias_fano.specs.SequenceParts.{Holds};
ghost use Rattle.bitm_abi.specs.Sequence.{sequence_parts, IsSequenceSized};
ghost use Rattle.bitm_abi.specs.Status.{Exported};
ghost use Rattle.bitm_numbers_c.specs.Cursor.{left_in, IsNextFromCursor, IsRight};

use crate::cursors::cursor::Cursor;
use bitm_abi::{BAD_SIZE, OK, WRONG, report};
use elias_fano::{LowDigits, laws};
use postings::{TotalCursor, total_start_on};

/// Sets a cursor to the first number of its sequence, or to the end where there is none.
#[unsafe(no_mangle)]
pub extern "C" fn bitm_cursor_start(cursor: &mut Cursor<'_>) -> u32
    ensures bad { (result ≡ 2) ↔ ¬ (IsSequenceSized cursor.old.sequence) }
    ensures status { (result ≡ 0) ⊎ (result ≡ 2) ⊎ (result ≡ 3) }
    ensures started { IsSequenceSized cursor.old.sequence → (xs : List ℕ)
        → Holds xs (sequence_parts cursor.old.sequence)
        → (result ≡ 0) × IsRight cursor.new × (left_in cursor.new ≡ xs) }
    ensures sequence { cursor.new.sequence ≡ cursor.old.sequence }
    ensures kept { result ≢ 0 → cursor.new ≡ cursor.old }
{
    laws::parts_hold_items();
    let Some(upper) = cursor.upper() else {
        return BAD_SIZE;
    };
    let mut low = LowDigits::new(cursor.sequence.low, cursor.sequence.width as u8);
    match total_start_on(&mut upper.probe(), &mut low, cursor.sequence.len) {
        Some(spot) => {
            cursor.stand_at(spot);
            OK
        }
        None => WRONG,
    }
}

/// Moves a cursor to the first number from it on that is at least `at_least`, and writes the number.
#[unsafe(no_mangle)]
pub extern "C" fn bitm_cursor_next(cursor: &mut Cursor<'_>, at_least: u64, out: &mut u64) -> u32
    ensures next { Exported (IsSequenceSized cursor.old.sequence) (IsNextFromCursor cursor.old at_least cursor.new)
        result out.old out.new }
    ensures sequence { cursor.new.sequence ≡ cursor.old.sequence }
{
    match cursor.upper() {
        Some(_) => report(cursor.total_next_geq(at_least), out),
        None => BAD_SIZE,
    }
}

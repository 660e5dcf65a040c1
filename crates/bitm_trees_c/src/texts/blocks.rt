//! The block of the index of a text: how many words it takes, and checking it.
ghost use Rattle.std.specs.Prelude.{◌≡◌, ◌≢◌, ◌↔◌, ◌⊎◌};
ghost use Rattle.bitm_block.specs.Layout.{end_of};
ghost use Rattle.text_block.specs.Block.{IsSoundBlock};
ghost use Rattle.text_block.specs.Written.{text_sections, CanHold};

use bitm_abi::{BAD_SIZE, OK, WRONG};
use text_block::TextView;
use text_block::making::size;

/// Writes how many words the block of a text of `len` letters of `width` bits takes, of an alphabet of the given number
/// of letters, which are numbers, with a sample each `step` letters.
#[unsafe(no_mangle)]
pub extern "C" fn bitm_text_size(
    len: usize,
    width: u32,
    letters: usize,
    step: u32,
    out: &mut usize,
) -> u32
    ensures ok { (result ≡ 0) ↔ CanHold len width letters step }
    ensures size { result ≡ 0 → out.new ≡ end_of (text_sections len width letters step 0) }
    ensures kept { result ≢ 0 → (result ≡ 2) × (out.new ≡ out.old) }
{
    if width > 64 {
        return BAD_SIZE;
    }
    match size(len, width as u8, letters, step) {
        Some(words) => {
            *out = words;
            OK
        }
        None => BAD_SIZE,
    }
}

/// Whether a block is as it was written, and holds the index of a text.
#[unsafe(no_mangle)]
pub extern "C" fn bitm_text_check(block: &[u64]) -> u32
    ensures ok { (result ≡ 0) ↔ IsSoundBlock block.now }
    ensures status { (result ≡ 0) ⊎ (result ≡ 3) }
{
    if TextView::open_checked(block).is_some() {
        OK
    } else {
        WRONG
    }
}

//! The block of the index of a text: opening it, and its length.
ghost use Rattle.std.specs.Prelude.{◌≡◌, ◌≢◌, ◌↔◌};
ghost use Rattle.text_block.specs.Block.{parts_in, HasTextLengths, IsTextBlock};
ghost use Rattle.bitm_trees_c.specs.Text.{text_parts};

use crate::text::Text;
use bitm_abi::{BAD_SIZE, OK, WRONG};
use text_block::TextView;

/// Opens a block: writes the index that queries take. What the sections hold is not looked at.
#[unsafe(no_mangle)]
pub extern "C" fn bitm_text_open<'a>(block: &'a [u64], text: &mut Text<'a>) -> u32
    ensures ok { (result ≡ 0) ↔ IsTextBlock block.now }
    ensures text { result ≡ 0 → text_parts text.new ≡ parts_in block.now }
    ensures kept { result ≢ 0 → (result ≡ 3) × (text.new ≡ text.old) }
{
    match TextView::open(block) {
        Some(view) => {
            *text = Text::of(&view);
            OK
        }
        None => WRONG,
    }
}

/// Writes how many letters the text has.
#[unsafe(no_mangle)]
pub extern "C" fn bitm_text_len(text: &Text<'_>, out: &mut usize) -> u32
    ensures ok { (result ≡ 0) ↔ HasTextLengths (text_parts text.now) }
    ensures len { result ≡ 0 → out.new ≡ text.now.letters.len }
    ensures kept { result ≢ 0 → (result ≡ 2) × (out.new ≡ out.old) }
{
    match text.view() {
        Some(view) => {
            *out = view.len();
            OK
        }
        None => BAD_SIZE,
    }
}

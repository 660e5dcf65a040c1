//! Queries of a text in a block, over letters and over bytes.
ghost use Rattle.std.specs.Prelude.{◌≡◌, ◌≢◌, ◌⊎◌, length};
ghost use Rattle.bitm_trees_c.specs.Text.{BytesAnswered, CountOfBytesAnswered, PartAnswered, TextCountAnswered};
ghost use Rattle.bitm_trees_c.specs.Text.{PositionsAnswered, PositionsOfBytesAnswered};

use crate::text::Text;
use bitm_abi::{BAD_SIZE, report};

/// At how many positions of the text a pattern stands.
#[unsafe(no_mangle)]
pub extern "C" fn bitm_text_count(text: &Text<'_>, pattern: &[u64], out: &mut usize) -> u32
    ensures { TextCountAnswered text.now pattern.now result out.old out.new }
{
    match text.view() {
        Some(view) => report(view.count(pattern), out),
        None => BAD_SIZE,
    }
}

/// `bitm_text_count` of a pattern of bytes.
#[unsafe(no_mangle)]
pub extern "C" fn bitm_text_count_bytes(text: &Text<'_>, pattern: &[u8], out: &mut usize) -> u32
    ensures { CountOfBytesAnswered text.now pattern.now result out.old out.new }
{
    match text.view() {
        Some(view) => report(view.count_bytes(pattern), out),
        None => BAD_SIZE,
    }
}

/// Positions at which a pattern stands, and how many were written.
#[unsafe(no_mangle)]
pub extern "C" fn bitm_text_locate(
    text: &Text<'_>,
    pattern: &[u64],
    from: usize,
    out: &mut [usize],
    written: &mut usize,
) -> u32
    ensures answer { PositionsAnswered text.now pattern.now from out.old out.new result written.old written.new }
    ensures kept { result ≡ 2 → out.new ≡ out.old }
{
    match text.view() {
        Some(view) => report(view.locate(pattern, from, out), written),
        None => BAD_SIZE,
    }
}

/// `bitm_text_locate` of a pattern of bytes.
#[unsafe(no_mangle)]
pub extern "C" fn bitm_text_locate_bytes(
    text: &Text<'_>,
    pattern: &[u8],
    from: usize,
    out: &mut [usize],
    written: &mut usize,
) -> u32
    ensures answer { PositionsOfBytesAnswered text.now pattern.now from out.old out.new result
        written.old written.new }
    ensures kept { result ≡ 2 → out.new ≡ out.old }
{
    match text.view() {
        Some(view) => report(view.locate_bytes(pattern, from, out), written),
        None => BAD_SIZE,
    }
}

/// The letters of the text from a position on, until `out` is full.
#[unsafe(no_mangle)]
pub extern "C" fn bitm_text_extract(text: &Text<'_>, from: usize, out: &mut [u64]) -> u32
    ensures answer { PartAnswered text.now from out.new result }
    ensures kept { (result ≡ 1) ⊎ (result ≡ 2) → out.new ≡ out.old }
{
    let mut written = out.len();
    match text.view() {
        Some(view) => report(view.extract(from, out), &mut written),
        None => BAD_SIZE,
    }
}

/// `bitm_text_extract` of the text as bytes.
#[unsafe(no_mangle)]
pub extern "C" fn bitm_text_extract_bytes(text: &Text<'_>, from: usize, out: &mut [u8]) -> u32
    ensures answer { BytesAnswered text.now from out.new result }
    ensures kept { (result ≡ 1) ⊎ (result ≡ 2) → out.new ≡ out.old }
{
    let mut written = out.len();
    match text.view() {
        Some(view) => match view.extract_bytes(from, out) {
            Some(answer) => report(answer, &mut written),
            None => BAD_SIZE,
        },
        None => BAD_SIZE,
    }
}

//! The block of a matrix: how many words it takes, writing it, opening it and checking it.
ghost use Rattle.std.specs.Prelude.{◌≡◌, ◌≢◌, ◌*◌, ◌^◌, ◌<◌, ◌↔◌, ◌⊎◌, All, IsTrue, length};
ghost use Rattle.bitm_block.specs.Layout.{end_of};
ghost use Rattle.levels_view.specs.Levels.{AreNumbers};
ghost use Rattle.matrix_block.specs.Block.{first_at, has_hints, has_quarters, matrix_in, sections_with};
ghost use Rattle.matrix_block.specs.Block.{CanHold, HasMatrixRoom, IsBlockOf, IsMatrixBlock, IsSoundBlock};
ghost use Rattle.matrix_block.specs.Levelwise.{Completes, WritesLevel};
ghost use Rattle.bitm_abi.specs.Matrix.{matrix_parts};
ghost use Rattle.bitm_numbers_c.specs.Matrix.{HasLevelRoom};

use bitm_abi::{BAD_SIZE, Matrix, OK, WRONG};
use matrix_block::{BuildError, MatrixView, build, seal_levels, size, write_level};

/// Writes how many words the block of the given number of numbers of `width` bits takes, with quarters or without, and
/// with hints or without.
#[unsafe(no_mangle)]
pub extern "C" fn bitm_matrix_size(
    len: usize,
    width: u32,
    quarters: bool,
    hints: bool,
    out: &mut usize,
) -> u32
    ensures ok { (result ≡ 0) ↔ AreNumbers len width }
    ensures size { result ≡ 0 → out.new ≡ end_of (sections_with len width quarters hints) }
    ensures kept { result ≢ 0 → (result ≡ 2) × (out.new ≡ out.old) }
{
    if width > 64 {
        return BAD_SIZE;
    }
    match size(len, width as u8, quarters, hints) {
        Some(words) => {
            *out = words;
            OK
        }
        None => BAD_SIZE,
    }
}

/// Writes the block of these numbers of `width` bits, with quarters or without, and with hints or without; what the
/// scratch has is overwritten.
#[unsafe(no_mangle)]
pub extern "C" fn bitm_matrix_build(
    numbers: &[u64],
    width: u32,
    quarters: bool,
    hints: bool,
    scratch: &mut [u64],
    block: &mut [u64],
) -> u32
    ensures ok { (result ≡ 0) ↔ (CanHold numbers.now width
        × (length block.old ≡ end_of (sections_with (length numbers.now) width quarters hints))
        × (length scratch.old ≡ 2 * length numbers.now)) }
    ensures wrong { (result ≡ 3)
        ↔ (HasMatrixRoom (length numbers.now) width quarters hints (length scratch.old) (length block.old)
        × (¬ (All (λ x. x < 2 ^ width) numbers.now))) }
    ensures status { (result ≡ 0) ⊎ (result ≡ 2) ⊎ (result ≡ 3) }
    ensures block { result ≡ 0 → IsBlockOf numbers.now width block.new }
    ensures quarters { result ≡ 0 → has_quarters block.new ≡ quarters }
    ensures hints { result ≡ 0 → has_hints block.new ≡ hints }
    ensures kept { result ≢ 0 → (block.new ≡ block.old) × (scratch.new ≡ scratch.old) }
{
    if width > 64 {
        return BAD_SIZE;
    }
    match build(numbers, width as u8, quarters, hints, scratch, block) {
        Ok(()) => OK,
        Err(BuildError::WrongWidth) => BAD_SIZE,
        Err(BuildError::TooLong) => BAD_SIZE,
        Err(BuildError::WrongLength) => BAD_SIZE,
        Err(BuildError::WrongScratch) => BAD_SIZE,
        Err(BuildError::TooWide) => WRONG,
    }
}

/// Whether the block of the given number of numbers of `width` bits, with quarters or without, and with hints or
/// without, has that many words.
fn is_block_len(len: usize, width: u32, quarters: bool, hints: bool, words: usize) -> bool
    ensures { IsTrue result ↔ (AreNumbers len width × (words ≡ end_of (sections_with len width quarters hints))) }
{
    if width > 64 {
        return false;
    }
    match size(len, width as u8, quarters, hints) {
        Some(wanted) => words == wanted,
        None => false,
    }
}

/// Writes one level of the block of these numbers of `width` bits, and puts the numbers in the order of the next one;
/// what the scratch has is overwritten.
#[unsafe(no_mangle)]
pub extern "C" fn bitm_matrix_write_level(
    numbers: &mut [u64],
    width: u32,
    quarters: bool,
    hints: bool,
    depth: u32,
    scratch: &mut [u64],
    block: &mut [u64],
) -> u32
    ensures ok { (result ≡ 0)
        ↔ HasLevelRoom (length numbers.old) width quarters hints depth (length scratch.old) (length block.old) }
    ensures status { (result ≡ 0) ⊎ (result ≡ 2) }
    ensures level { result ≡ 0 → WritesLevel width depth (first_at quarters hints)
        numbers.old numbers.new block.old block.new }
    ensures kept { result ≢ 0
        → (numbers.new ≡ numbers.old) × (scratch.new ≡ scratch.old) × (block.new ≡ block.old) }
{
    if depth >= width || scratch.len() != numbers.len() {
        return BAD_SIZE;
    }
    if !is_block_len(numbers.len(), width, quarters, hints, block.len()) {
        return BAD_SIZE;
    }
    write_level(
        numbers,
        width as u8,
        quarters,
        hints,
        depth as u8,
        scratch,
        block,
    );
    OK
}

/// Completes a block in which each level was written: writes tables, quarters, hints, header and directory.
#[unsafe(no_mangle)]
pub extern "C" fn bitm_matrix_seal(
    len: usize,
    width: u32,
    quarters: bool,
    hints: bool,
    block: &mut [u64],
) -> u32
    ensures ok { (result ≡ 0)
        ↔ (AreNumbers len width × (length block.old ≡ end_of (sections_with len width quarters hints))) }
    ensures status { (result ≡ 0) ⊎ (result ≡ 2) }
    ensures block { result ≡ 0 → Completes len width (first_at quarters hints) block.old block.new }
    ensures sound { result ≡ 0 → IsSoundBlock block.new }
    ensures quarters { result ≡ 0 → has_quarters block.new ≡ quarters }
    ensures hints { result ≡ 0 → has_hints block.new ≡ hints }
    ensures kept { result ≢ 0 → block.new ≡ block.old }
{
    if !is_block_len(len, width, quarters, hints, block.len()) {
        return BAD_SIZE;
    }
    seal_levels(len, width as u8, quarters, hints, block);
    OK
}

/// Opens a block: writes the matrix that queries take. What the words and tables hold is not looked at.
#[unsafe(no_mangle)]
pub extern "C" fn bitm_matrix_open<'a>(block: &'a [u64], matrix: &mut Matrix<'a>) -> u32
    ensures ok { (result ≡ 0) ↔ IsMatrixBlock block.now }
    ensures matrix { result ≡ 0 → matrix_parts matrix.new ≡ matrix_in block.now }
    ensures kept { result ≢ 0 → (result ≡ 3) × (matrix.new ≡ matrix.old) }
{
    match MatrixView::open(block) {
        Some(view) => {
            *matrix = Matrix::of(&view);
            OK
        }
        None => WRONG,
    }
}

/// Whether a block is as it was written, and holds a matrix: two passes over its words.
#[unsafe(no_mangle)]
pub extern "C" fn bitm_matrix_check(block: &[u64]) -> u32
    ensures ok { (result ≡ 0) ↔ IsSoundBlock block.now }
    ensures status { (result ≡ 0) ⊎ (result ≡ 3) }
{
    if MatrixView::open_checked(block).is_some() {
        OK
    } else {
        WRONG
    }
}

//! The block of strings, written into the caller's memory.
ghost use Rattle.std.specs.Prelude.{◌≡◌, ◌≢◌, ◌^◌, ◌<◌, ◌↔◌, IfErr, IfOk, IsOk, IsTrue, length};
ghost use Rattle.bitm_tables.specs.Tables.{bits_in};
ghost use Rattle.bitm_block.specs.Layout.{end_of};
ghost use Rattle.bitm_block.specs.Written.{IsSealed};
ghost use Rattle.perfect_hash.specs.Numbers.{AreSizes};
ghost use Rattle.hash_block.specs.Block.{IsBlockOf as IsHashOf};
ghost use Rattle.hash_block.specs.Parts.{IsHash};
ghost use Rattle.hash_block.specs.StringsBlock.{hash_len, sections_of, string_head};
ghost use Rattle.hash_block.specs.StringsBlock.{AreFewStrings, CanHold, IsBlockOf, IsReason, NumberStrings, StandsIn};
ghost use Rattle.hash_block.specs.StringsBlock.{StringsRoundTrip};
ghost use Rattle.hash_block.specs.StringsParts.{string_number};

use crate::HashView;
use crate::strings::error::BuildError;
use crate::strings::given::are_given;
use crate::strings::placing::write_placed;
use crate::strings::sections::{hash_len, size, string_head, string_sections};
use bitm_block::{aligned, seal_sized};

/// Writes the block of the hash.
fn write_hash(hash: &HashView<'_>, block: &mut [u64])
    requires hash { IsHash hash.now }
    requires few { length hash.now.lists.words < 2 ^ 57 }
    requires room { length block.old
        ≡ hash_len (length hash.now.lists.words) (length hash.now.sizes) }
    ensures { IsHashOf hash.now.sizes (bits_in hash.now.lists) hash.now.seed block.new }
{
    match crate::build(hash.tables().words(), hash.sizes(), hash.seed(), block) {
        Ok(()) => {}
        Err(_) => unreachable!(),
    }
}

/// Writes the sections of strings where their block has them; answers false exactly where the hash does not number the
/// strings.
fn write_parts(hash: &HashView<'_>, bytes: &[u8], ends: &[usize], block: &mut [u64]) -> bool
    requires holds { CanHold hash.now bytes.now ends.now block.old }
    requires hash { IsHash hash.now }
    requires keys { hash.now.keys ≡ length ends.now }
    ensures numbers { IsTrue result ↔ NumberStrings hash.now bytes.now ends.now }
    ensures stands { IsTrue result → StandsIn hash.now bytes.now ends.now block.new }
    ensures len { length block.new ≡ length block.old }
{
    let taken = hash_len(hash.tables().words().len(), hash.sizes().len());
    let count = ends.len() + 1;
    let (_head, rest) = block.split_at_mut(32);
    let (room, rest) = rest.split_at_mut(aligned(taken));
    let (to_hash, _gap) = room.split_at_mut(taken);
    let (room, rest) = rest.split_at_mut(aligned(count));
    let (starts, _gap) = room.split_at_mut(count);
    let (to, _gap) = rest.split_at_mut(bytes.len().div_ceil(8));
    write_hash(hash, to_hash);
    write_placed(hash, bytes, ends, starts, to)
}

/// Writes the header and the directory of strings.
fn seal_strings(words: usize, levels: usize, strings: usize, bytes: usize, block: &mut [u64])
    requires few { AreFewStrings words levels strings bytes }
    requires room { length block.old ≡ end_of (sections_of words levels strings bytes) }
    ensures { IsSealed (string_head strings) (sections_of words levels strings bytes) block.old
        block.new }
{
    let sections = string_sections(hash_len(words, levels), strings, bytes);
    seal_sized(&string_head(strings), sections.as_slice(), block);
}

/// Writes the block of strings; answers false exactly where the hash does not number them.
fn write_block(hash: &HashView<'_>, bytes: &[u8], ends: &[usize], block: &mut [u64]) -> bool
    requires { CanHold hash.now bytes.now ends.now block.old }
    ensures numbers { IsTrue result ↔ NumberStrings hash.now bytes.now ends.now }
    ensures block { IsTrue result
        → IsBlockOf (string_number hash.now) bytes.now ends.now block.new }
{
    if hash.keys() != ends.len() || !hash.check() {
        return false;
    }
    if !write_parts(hash, bytes, ends, &mut *block) {
        return false;
    }
    let (words, levels) = (hash.tables().words().len(), hash.sizes().len());
    seal_strings(words, levels, ends.len(), bytes.len(), block);
    true
}

/// Writes the block of strings, each of which gets the number that the perfect hash gives to its hash (`hash`, by the
/// perfect hash's seed). The strings stand one after another in `bytes`, string `i` up to `ends[i]`. `open` opens the
/// block, `check` accepts it, and `find` finds each string and nothing else.
///
/// # Errors
/// `TooLong` exactly where there are 2^57 words of levels or strings or more, or 2^60 bytes or more; else `NotGiven`
/// exactly where the ends fall, or the last is not the end of the bytes; else `WrongLength` exactly where the words of
/// the block are more or fewer than it takes (`size`); else `NotNumbered` exactly where the parts form no hash, or it
/// does not give each string a number of its own. The block may hold anything after `NotNumbered`, and stays as it is
/// after another error.
/// # Cost
/// Three passes over the words of the levels, two over the bytes, and one over the block, and `HashView::get` for each
/// string (evident from the code). Nothing is allocated.
///
/// ```
/// // `hash` numbers the hashes of these strings by its seed
/// build(&hash, b"adabobeve".as_slice(), &[3, 6, 9], block.as_mut_slice());   // Ok(())
/// build(&hash, b"adabobeve".as_slice(), &[3, 6], block.as_mut_slice());      // Err(BuildError::NotGiven)
/// ```
pub fn build(
    hash: &HashView<'_>,
    bytes: &[u8],
    ends: &[usize],
    block: &mut [u64],
) -> Result<(), BuildError>
    ensures ok { IsOk result ↔ CanHold hash.now bytes.now ends.now block.old
        × NumberStrings hash.now bytes.now ends.now }
    ensures error { IfErr result (IsReason hash.now bytes.now ends.now block.old) }
    ensures block { IfOk result
        (λ _. IsBlockOf (string_number hash.now) bytes.now ends.now block.new) }
    ensures kept { IfErr result (λ e. e ≢ BuildError.NotNumbered → block.new ≡ block.old) }
{
    let (words, levels) = (hash.tables().words().len(), hash.sizes().len());
    let Some(len) = size(words, levels, ends.len(), bytes.len()) else {
        return Err(BuildError::TooLong);
    };
    if !are_given(bytes, ends) {
        return Err(BuildError::NotGiven);
    }
    if block.len() != len {
        return Err(BuildError::WrongLength);
    }
    if !write_block(hash, bytes, ends, block) {
        return Err(BuildError::NotNumbered);
    }
    Ok(())
}

/// What `build` wrote is opened and accepted by `check`, and `find` of each of the strings answers the number that the
/// hash gives it, and nothing else.
///
/// ```
/// round_trip();   // its clause is the law, over the clauses of `build`, `check` and `find`
/// ```
pub fn round_trip()
    ensures { StringsRoundTrip }
{}

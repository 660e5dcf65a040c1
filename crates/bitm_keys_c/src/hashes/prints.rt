//! The fingerprints of keys, each at the number of its key, written into the caller's words.
ghost use Rattle.std.specs.Prelude.{◌≡◌, ◌≢◌, ℕ, ◌%◌, ◌≤◌, ◌^◌, ◌↔◌, ◌⊎◌, IsTrue, length};
ghost use Rattle.bitm_keys_c.specs.Prints.{number_of_key_in, ArePrintsKept, ArePrintsSized, ArePrintsWritten, AreSet};
ghost use Rattle.bitm_keys_c.specs.Prints.{CanBeFound, HaveRoom, SetsPrint};
ghost use Rattle.bitm_abi.specs.Hash.{parts_of, IsHashOf};

use bit_words::n_lowest_bits_0_64;
use bit_words::slices::set_fragment_in;
use bitm_abi::{BAD_SIZE, Hash, OK, PerfectHashView, WRONG};
use bitm_tables::answer::Answer;

/// Whether these words can be fingerprints of `width` bits.
#[inline(always)]
pub(crate) fn can_be_prints(prints: &[u64], width: u32) -> bool
    ensures { IsTrue result ↔ ArePrintsSized prints.now width }
{
    prints.len() < 1 << 58 && width <= 64
}

/// The `width` lowest bits of a number.
#[inline(always)]
pub(crate) fn lowest_bits(number: u64, width: u32) -> u64
    requires { width ≤ 64 }
    ensures { result ≡ number % 2 ^ width }
{
    number & n_lowest_bits_0_64(width as u8)
}

/// Writes the fingerprint of a key at its number. Answers whether the key has a number for which there is room.
#[inline(always)]
fn write_print(
    hash: &PerfectHashView<'_>,
    key_hash: u64,
    key_print: u64,
    prints: &mut [u64],
    width: u32,
) -> bool
    requires { ArePrintsSized prints.old width }
    ensures print { SetsPrint hash.now key_hash width key_print prints.old prints.new result }
    ensures len { length prints.new ≡ length prints.old }
{
    match hash.number(key_hash) {
        Answer::Found(number) => {
            let len = 64 * prints.len();
            set_fragment_in(prints, len, number, width, key_print)
        }
        Answer::Absent | Answer::Wrong => false,
    }
}

/// Writes the fingerprint of each key at its number. Answers whether each key has a number for which there is room.
pub(crate) fn write_each(
    hash: &PerfectHashView<'_>,
    key_hashes: &[u64],
    key_prints: &[u64],
    prints: &mut [u64],
    width: u32,
) -> bool
    requires sized { ArePrintsSized prints.old width }
    requires same_length { length key_prints.now ≡ length key_hashes.now }
    ensures set { AreSet hash.now key_hashes.now key_prints.now prints.old prints.new width
        (length key_hashes.now) (IsTrue result) }
    ensures len { length prints.new ≡ length prints.old }
{
    let mut all = true;
    for at in 0..key_hashes.len() {
        all &= write_print(hash, key_hashes[at], key_prints[at], &mut *prints, width);
    }
    all
}

/// Writes the fingerprint of each key at its number.
#[unsafe(no_mangle)]
pub extern "C" fn bitm_hash_set_prints(
    hash: &Hash<'_>,
    key_hashes: &[u64],
    key_prints: &[u64],
    prints: &mut [u64],
    width: u32,
) -> u32
    ensures sized { (result ≡ 2) ↔ ¬ (CanBeFound (parts_of hash.now) prints.old width
        × (length key_prints.now ≡ length key_hashes.now)) }
    ensures bad { result ≡ 2 → prints.new ≡ prints.old }
    ensures good { (result ≡ 0) ⊎ (result ≡ 2) ⊎ (result ≡ 3) }
    ensures set { result ≢ 2 → AreSet (parts_of hash.now) key_hashes.now key_prints.now
        prints.old prints.new width (length key_hashes.now) (result ≡ 0) }
    ensures written { result ≢ 2 → IsHashOf (parts_of hash.now)
        → ArePrintsWritten (number_of_key_in (parts_of hash.now) key_hashes.now) key_prints.now
        prints.new width (length key_hashes.now) }
    ensures kept { result ≢ 2 → IsHashOf (parts_of hash.now)
        → ArePrintsKept (number_of_key_in (parts_of hash.now) key_hashes.now)
        prints.old prints.new width (length key_hashes.now) }
    ensures room { result ≢ 2 → IsHashOf (parts_of hash.now)
        → (result ≡ 0) ↔ HaveRoom (number_of_key_in (parts_of hash.now) key_hashes.now)
        prints.old width (length key_hashes.now) }
{
    if !can_be_prints(&*prints, width) || key_prints.len() != key_hashes.len() {
        return BAD_SIZE;
    }
    let Some(borrowed) = hash.view() else {
        return BAD_SIZE;
    };
    let all = write_each(&borrowed, key_hashes, key_prints, prints, width);
    if all { OK } else { WRONG }
}

//! The numbers of keys whose fingerprint is there: of almost all others none is found. The caller hashes the keys, and
//! says the fingerprint of each.
ghost use Rattle.std.specs.Prelude.{◌≡◌, ◌≢◌, ℕ, ◌<◌, ◌≤◌, ◌^◌, ◌↔◌, IsTrue, false, length, slice_index};
ghost use Rattle.bitm_view.specs.Queries.{ranked_by};
ghost use Rattle.bitm_keys_c.specs.Prints.{CanBeFound, IsChecked, IsKey, KeyAnswered};
ghost use Rattle.bitm_abi.specs.Hash.{parts_of};
ghost use Rattle.bitm_tables.specs.declared.answer.Answer.TheVariants.{Found};
ghost use Rattle.bitm_abi.specs.Lists.{AreAnswersCounted};

use crate::hashes::prints::{can_be_prints, lowest_bits};
use bit_words::slices::fragment_in;
use bitm_abi::{BAD_SIZE, Hash, ListCounts, PerfectHashView, report, report_list};
use bitm_select::search::selected::{NO_ANSWER, WRONG_TABLES};
use bitm_tables::answer::Answer;

/// The number, if its fingerprint is the lowest bits of `print`; `Wrong` if there is no room for a fingerprint.
#[inline(always)]
fn checked(prints: &[u64], width: u32, print: u64, number: usize) -> Answer<usize>
    requires few { length prints.now < 2 ^ 58 }
    requires width { width ≤ 64 }
    ensures { IsChecked prints.now width print (Found number) result }
{
    let Some(found) = fragment_in(prints, 64 * prints.len(), number, width) else {
        return Answer::Wrong;
    };
    if found == lowest_bits(print, width) {
        Answer::Found(number)
    } else {
        Answer::Absent
    }
}

/// The answer of a look-up: what `checked` answers for a number that was found.
#[inline(always)]
pub(crate) fn checked_answer(
    prints: &[u64],
    width: u32,
    print: u64,
    number: Answer<usize>,
) -> Answer<usize>
    requires few { length prints.now < 2 ^ 58 }
    requires width { width ≤ 64 }
    ensures { IsChecked prints.now width print number result }
{
    match number {
        Answer::Found(number) => checked(prints, width, print, number),
        Answer::Absent => Answer::Absent,
        Answer::Wrong => Answer::Wrong,
    }
}

/// The number of a key by its hash and its fingerprint, below the number of keys.
#[unsafe(no_mangle)]
pub extern "C" fn bitm_hash_find(
    hash: &Hash<'_>,
    prints: &[u64],
    width: u32,
    key_hash: u64,
    key_print: u64,
    out: &mut usize,
) -> u32
    ensures { KeyAnswered (parts_of hash.now) prints.now width key_hash key_print
        result out.old out.new }
{
    if !can_be_prints(prints, width) {
        return BAD_SIZE;
    }
    match hash.view() {
        Some(borrowed) => {
            let number = borrowed.number(key_hash);
            report(checked_answer(prints, width, key_print, number), out)
        }
        None => BAD_SIZE,
    }
}

/// The code of a number in a list, where its fingerprint is the lowest bits of `print`; another code is kept.
#[inline(always)]
fn checked_code(prints: &[u64], width: u32, print: u64, code: usize) -> usize
    requires few { length prints.now < 2 ^ 58 }
    requires width { width ≤ 64 }
    ensures { IsChecked prints.now width print (ranked_by code) (ranked_by result) }
{
    if code >= WRONG_TABLES {
        return code;
    }
    match checked(prints, width, print, code) {
        Answer::Found(number) => number,
        Answer::Absent => NO_ANSWER,
        Answer::Wrong => WRONG_TABLES,
    }
}

/// Puts a code in the place of each number whose fingerprint does not match its key.
fn check_each(prints: &[u64], width: u32, key_prints: &[u64], numbers: &mut [usize])
    requires few { length prints.now < 2 ^ 58 }
    requires width { width ≤ 64 }
    requires same_length { length key_prints.now ≡ length numbers.old }
    ensures each { (j : ℕ) → j < length numbers.old → IsChecked prints.now width
        (slice_index key_prints.now j) (ranked_by (slice_index numbers.old j))
        (ranked_by (slice_index numbers.new j)) }
    ensures len { length numbers.new ≡ length numbers.old }
{
    for at in 0..key_prints.len() {
        numbers[at] = checked_code(prints, width, key_prints[at], numbers[at]);
    }
}

/// Writes the number of each key. Returns false, and writes nothing, exactly where `out` is not as long as the hashes.
pub(crate) fn find_each(
    hash: &PerfectHashView<'_>,
    prints: &[u64],
    width: u32,
    key_hashes: &[u64],
    key_prints: &[u64],
    out: &mut [usize],
) -> bool
    requires few { length prints.now < 2 ^ 58 }
    requires width { width ≤ 64 }
    requires same_length { length key_prints.now ≡ length key_hashes.now }
    ensures room { IsTrue result ↔ length out.old ≡ length key_hashes.now }
    ensures numbers { IsTrue result → (j : ℕ) → j < length key_hashes.now → IsKey hash.now
        prints.now width (slice_index key_hashes.now j)
        (slice_index key_prints.now j) (ranked_by (slice_index out.new j)) }
    ensures kept { result ≡ false → out.new ≡ out.old }
{
    let done = hash.number_list(key_hashes, &mut *out);
    if done {
        check_each(prints, width, key_prints, out);
    }
    done
}

/// The numbers of a list of keys, and how many of these are codes.
#[unsafe(no_mangle)]
pub extern "C" fn bitm_hash_find_list(
    hash: &Hash<'_>,
    prints: &[u64],
    width: u32,
    key_hashes: &[u64],
    key_prints: &[u64],
    out: &mut [usize],
    counts: &mut ListCounts,
) -> u32
    ensures ok { (result ≡ 0) ↔ CanBeFound (parts_of hash.now) prints.now width
        × (length out.old ≡ length key_hashes.now) × (length key_prints.now ≡ length key_hashes.now) }
    ensures unchanged { result ≢ 0 → (result ≡ 2) × (out.new ≡ out.old)
        × (counts.new ≡ counts.old) }
    ensures numbers { result ≡ 0 → (j : ℕ) → j < length key_hashes.now → IsKey (parts_of hash.now)
        prints.now width (slice_index key_hashes.now j)
        (slice_index key_prints.now j) (ranked_by (slice_index out.new j)) }
    ensures counts { result ≡ 0 → AreAnswersCounted out.new counts.new }
{
    if !can_be_prints(prints, width) || key_prints.len() != key_hashes.len() {
        return BAD_SIZE;
    }
    let Some(borrowed) = hash.view() else {
        return BAD_SIZE;
    };
    let done = find_each(&borrowed, prints, width, key_hashes, key_prints, &mut *out);
    report_list(done, &*out, counts)
}

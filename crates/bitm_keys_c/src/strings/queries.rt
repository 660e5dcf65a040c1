//! Which number each string has, and which string each number.
ghost use Rattle.std.specs.Prelude.{◌≡◌, ◌≢◌, ◌-◌, ◌^◌, ◌<◌, ◌↔◌, ℕ, length, slice_index};
ghost use Rattle.bitm_abi.specs.Lists.{AreAnswersCounted};
ghost use Rattle.bitm_view.specs.Queries.{selected_by};
ghost use Rattle.hash_block.specs.Given.{given, len_of, AreGiven};
ghost use Rattle.hash_block.specs.StringsParts.{HasStringStarts};
ghost use Rattle.bitm_keys_c.specs.Strings.{string_parts, FindAnswered, GetAnswered, IsNumberOfString};

use crate::strings::strings::Strings;
use bitm_abi::{BAD_SIZE, ListCounts, code_of, report, report_both, report_list};
use bitm_select::search::selected::WRONG_TABLES;
use hash_block::strings::{StringsView, are_given};

/// The number of a string.
#[unsafe(no_mangle)]
pub extern "C" fn bitm_strings_find(strings: &Strings<'_>, string: &[u8], out: &mut usize) -> u32
    ensures { FindAnswered strings.now string.now result out.old out.new }
{
    match strings.view() {
        Some(view) => report(view.find(string), out),
        None => BAD_SIZE,
    }
}

/// The number of one of the given strings, by the codes of lists.
#[inline(always)]
fn found_code(view: &StringsView<'_>, bytes: &[u8], ends: &[usize], i: usize) -> usize
    requires codes { view.now.hash.keys < 2 ^ 64 - 2 }
    requires given { AreGiven bytes.now ends.now }
    requires inside { i < length ends.now }
    ensures { IsNumberOfString (given bytes.now ends.now i) (len_of ends.now i) view.now
        (selected_by result) }
{
    code_of(view.find_given(bytes, ends, i))
}

/// The number of each string.
fn find_each(view: &StringsView<'_>, bytes: &[u8], ends: &[usize], out: &mut [usize])
    requires codes { view.now.hash.keys < 2 ^ 64 - 2 }
    requires given { AreGiven bytes.now ends.now }
    requires room { length out.old ≡ length ends.now }
    ensures { (j : ℕ) → j < length ends.now
        → IsNumberOfString (given bytes.now ends.now j) (len_of ends.now j) view.now
        (selected_by (slice_index out.new j)) }
{
    for at in 0..ends.len() {
        out[at] = found_code(view, bytes, ends, at);
    }
}

/// The number of each of the strings that stand one after another in `bytes`, each up to its end, and how many of the
/// answers are codes.
#[unsafe(no_mangle)]
pub extern "C" fn bitm_strings_find_list(
    strings: &Strings<'_>,
    bytes: &[u8],
    ends: &[usize],
    out: &mut [usize],
    counts: &mut ListCounts,
) -> u32
    ensures ok { (result ≡ 0) ↔ HasStringStarts (string_parts strings.now)
        × (strings.now.hash.keys < 2 ^ 64 - 2) × AreGiven bytes.now ends.now
        × (length out.old ≡ length ends.now) }
    ensures kept { result ≢ 0 → (result ≡ 2) × (out.new ≡ out.old) × (counts.new ≡ counts.old) }
    ensures numbers { result ≡ 0 → (j : ℕ) → j < length ends.now
        → IsNumberOfString (given bytes.now ends.now j) (len_of ends.now j) (string_parts strings.now)
        (selected_by (slice_index out.new j)) }
    ensures counts { result ≡ 0 → AreAnswersCounted out.new counts.new }
{
    let Some(view) = strings.view() else {
        return BAD_SIZE;
    };
    // a number that is found is no code then
    if view.len() >= WRONG_TABLES || out.len() != ends.len() || !are_given(bytes, ends) {
        return BAD_SIZE;
    }
    find_each(&view, bytes, ends, &mut *out);
    report_list(true, &*out, counts)
}

/// Where the string of a number begins among the bytes, and how many it has.
#[unsafe(no_mangle)]
pub extern "C" fn bitm_strings_get(
    strings: &Strings<'_>,
    number: usize,
    begin: &mut usize,
    len: &mut usize,
) -> u32
    ensures { GetAnswered strings.now number result (begin.old, len.old) (begin.new, len.new) }
{
    match strings.view() {
        Some(view) => report_both(view.get(number), begin, len),
        None => BAD_SIZE,
    }
}

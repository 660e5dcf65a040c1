//! Whether numbers are keys of a dictionary in a block, and which number each key has.
ghost use Rattle.std.specs.Prelude.{◌≡◌, ◌≢◌, ◌-◌, ◌^◌, ◌<◌, ◌↔◌, ℕ, length, slice_index};
ghost use Rattle.bitm_abi.specs.Lists.{AreAnswersCounted};
ghost use Rattle.bitm_view.specs.Queries.{selected_by};
ghost use Rattle.hash_block.specs.Dictionary.{HasKeys};
ghost use Rattle.bitm_keys_c.specs.Dictionary.{dictionary_parts, FindAnswered, IsKeyNumber};

use crate::dictionary::Dictionary;
use bitm_abi::{BAD_SIZE, ListCounts, code_of, report, report_list};
use bitm_select::search::selected::WRONG_TABLES;
use hash_block::DictionaryView;

/// The number of a key, which is where it stands among the keys.
#[unsafe(no_mangle)]
pub extern "C" fn bitm_dictionary_find(
    dictionary: &Dictionary<'_>,
    key: u64,
    out: &mut usize,
) -> u32
    ensures { FindAnswered dictionary.now key result out.old out.new }
{
    match dictionary.view() {
        Some(view) => report(view.find(key), out),
        None => BAD_SIZE,
    }
}

/// The number of a key, by the codes of lists.
#[inline(always)]
fn found_code(view: &DictionaryView<'_>, key: u64) -> usize
    requires { length view.now.keys < 2 ^ 64 - 2 }
    ensures { IsKeyNumber key view.now (selected_by result) }
{
    code_of(view.find(key))
}

/// The number of each key.
fn find_each(view: &DictionaryView<'_>, keys: &[u64], out: &mut [usize])
    requires codes { length view.now.keys < 2 ^ 64 - 2 }
    requires room { length out.old ≡ length keys.now }
    ensures { (j : ℕ) → j < length keys.now
        → IsKeyNumber (slice_index keys.now j) view.now (selected_by (slice_index out.new j)) }
{
    for at in 0..keys.len() {
        out[at] = found_code(view, keys[at]);
    }
}

/// The number of each key of a list, and how many of the answers are codes.
#[unsafe(no_mangle)]
pub extern "C" fn bitm_dictionary_find_list(
    dictionary: &Dictionary<'_>,
    keys: &[u64],
    out: &mut [usize],
    counts: &mut ListCounts,
) -> u32
    ensures ok { (result ≡ 0) ↔ HasKeys (dictionary_parts dictionary.now)
        × (length dictionary.now.keys.now < 2 ^ 64 - 2) × (length out.old ≡ length keys.now) }
    ensures kept { result ≢ 0 → (result ≡ 2) × (out.new ≡ out.old) × (counts.new ≡ counts.old) }
    ensures numbers { result ≡ 0 → (j : ℕ) → j < length keys.now → IsKeyNumber
        (slice_index keys.now j) (dictionary_parts dictionary.now) (selected_by (slice_index out.new j)) }
    ensures counts { result ≡ 0 → AreAnswersCounted out.new counts.new }
{
    let Some(view) = dictionary.view() else {
        return BAD_SIZE;
    };
    // a number that is found is no code then
    if view.keys().len() >= WRONG_TABLES || out.len() != keys.len() {
        return BAD_SIZE;
    }
    find_each(&view, keys, &mut *out);
    report_list(true, &*out, counts)
}

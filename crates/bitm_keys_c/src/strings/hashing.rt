//! The hashes of strings, and of keys.
ghost use Rattle.std.specs.Prelude.{◌≡◌, ◌≢◌, ◌<◌, ◌↔◌, ℕ, length, slice_index};
ghost use Rattle.hash_block.specs.Given.{given, len_of, AreGiven};
ghost use Rattle.hash_block.specs.Prints.{print_of_hash};
ghost use Rattle.hash_block.specs.SipHash.{hash_of, keyed_hash};

use bitm_abi::{BAD_SIZE, OK};
use hash_block::strings::{hash, hashes, key_hash};

/// Writes the hash of a string by a seed.
#[unsafe(no_mangle)]
pub extern "C" fn bitm_strings_hash(string: &[u8], seed: u64, out: &mut u64) -> u32
    ensures ok { result ≡ 0 }
    ensures hash { out.new ≡ hash_of seed (slice_index string.now) (length string.now) }
{
    *out = hash(seed, string);
    OK
}

/// Writes the hash of a key of a kind by a seed, and its fingerprint.
#[unsafe(no_mangle)]
pub extern "C" fn bitm_key_hash(
    key: &[u8],
    seed: u64,
    kind: u64,
    hash: &mut u64,
    print: &mut u64,
) -> u32
    ensures ok { result ≡ 0 }
    ensures hash { hash.new ≡ keyed_hash seed kind (slice_index key.now) (length key.now) }
    ensures print { print.new ≡ print_of_hash hash.new }
{
    (*hash, *print) = key_hash(seed, kind, key);
    OK
}

/// Writes the hash of each of the strings that stand one after another in `bytes`, each up to its end.
#[unsafe(no_mangle)]
pub extern "C" fn bitm_strings_hashes(
    bytes: &[u8],
    ends: &[usize],
    seed: u64,
    out: &mut [u64],
) -> u32
    ensures ok { (result ≡ 0)
        ↔ AreGiven bytes.now ends.now × (length out.old ≡ length ends.now) }
    ensures hashes { result ≡ 0 → (i : ℕ) → i < length ends.now
        → slice_index out.new i ≡ hash_of seed (given bytes.now ends.now i) (len_of ends.now i) }
    ensures kept { result ≢ 0 → (result ≡ 2) × (out.new ≡ out.old) }
{
    if hashes(seed, bytes, ends, out) {
        OK
    } else {
        BAD_SIZE
    }
}

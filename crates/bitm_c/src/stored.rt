//! The header of a file with an index or a sequence: which parts it has, and where each of them is.
ghost use Rattle.std.specs.Prelude.{◌≡◌, ◌≢◌, ◌*◌, ◌<◌, ◌↔◌, length};
ghost use Rattle.bitm_abi.specs.Stored.{header_in, HasIndexLens, HasSequenceLens, IsHeaded, IsIndexHeaderOf};
ghost use Rattle.bitm_abi.specs.Stored.{IsSequenceOf};
ghost use Rattle.bitm_abi.specs.Stored.{IsStored, LiesWithin};

use bitm_abi::{BAD_SIZE, OK, SequenceLens, Stored, WRONG, header_of, index_of, sequence_of};
use tables_view::{lower_len, upper_len};

/// Writes the header of an index of `bits_len` bits with the given numbers of samples of 1 bits and of 0 bits; a
/// logarithm of 0 goes with no samples.
#[unsafe(no_mangle)]
pub extern "C" fn bitm_stored_index(
    bits_len: u64,
    ones_log2: u32,
    ones_len: u64,
    zeros_log2: u32,
    zeros_len: u64,
    out: &mut Stored,
) -> u32
    ensures ok { (result ≡ 0) ↔ HasIndexLens bits_len ones_log2 ones_len zeros_log2 zeros_len }
    ensures header { result ≡ 0 → IsStored out.new
        × IsIndexHeaderOf bits_len ones_log2 ones_len zeros_log2 zeros_len out.new }
    ensures kept { result ≢ 0 → (result ≡ 2) × (out.new ≡ out.old) }
{
    let lens = index_of(bits_len, ones_log2, ones_len, zeros_log2, zeros_len);
    if !lens.has_shape() {
        return BAD_SIZE;
    }
    *out = lens.laid_out();
    OK
}

/// Writes the header of a sequence of `len` numbers whose parts have the given lengths.
#[unsafe(no_mangle)]
pub extern "C" fn bitm_stored_sequence(len: u64, lens: &SequenceLens, out: &mut Stored) -> u32
    ensures ok { (result ≡ 0) ↔ HasSequenceLens len lens.now }
    ensures header { result ≡ 0 → IsStored out.new × IsSequenceOf len lens.now out.new }
    ensures kept { result ≢ 0 → (result ≡ 2) × (out.new ≡ out.old) }
{
    let SequenceLens {
        width: _,
        low_len: _,
        words_len,
        upper_len: upper,
        lower_len: lower,
    } = *lens;
    let header = sequence_of(len, lens);
    if !header.has_shape() {
        return BAD_SIZE;
    }
    if upper != upper_len(words_len as usize) as u64 {
        return BAD_SIZE;
    }
    if lower != lower_len(words_len as usize) as u64 {
        return BAD_SIZE;
    }
    *out = header.laid_out();
    OK
}

/// Reads the header of a file that has all the parts that the header claims.
#[unsafe(no_mangle)]
pub extern "C" fn bitm_stored_read(file: &[u64], out: &mut Stored) -> u32
    ensures ok { (result ≡ 0) ↔ IsHeaded file.now }
    ensures header { result ≡ 0 → (out.new ≡ header_in file.now) × IsStored out.new }
    ensures inside { result ≡ 0 → LiesWithin out.new (8 * length file.now) }
    ensures kept { result ≢ 0 → (result ≡ 3) × (out.new ≡ out.old) }
{
    match header_of(file) {
        Some(header) => {
            *out = header;
            OK
        }
        None => WRONG,
    }
}

//! Reads and writes of a few bits that begin anywhere in a slice of bytes, by one little-endian word.
ghost use Rattle.std.specs.Prelude.{◌≡◌, ◌+◌, ◌*◌, ◌/◌, ◌≤◌, length};
ghost use Rattle.bit_words.specs.Bytes.{byte_bits_of, byte_window, with_window};
ghost use Rattle.bit_lists.specs.Number.{number_of_bits, number_at, with_number};

/// The eight bytes from byte `at` on as a number, the lowest first.
#[inline(always)]
fn load8(bytes: &[u8], at: usize) -> u64
    requires { at + 8 ≤ length bytes.now }
    ensures { result ≡ number_at (byte_bits_of bytes.now) (8 * at) 64 }
{
    u64::from_le_bytes([
        bytes[at],
        bytes[at + 1],
        bytes[at + 2],
        bytes[at + 3],
        bytes[at + 4],
        bytes[at + 5],
        bytes[at + 6],
        bytes[at + 7],
    ])
}

/// Replaces the eight bytes from byte `at` on by the bytes of `word`, the lowest first.
#[inline(always)]
fn store8(bytes: &mut [u8], at: usize, word: u64)
    requires { at + 8 ≤ length bytes.old }
    ensures { byte_bits_of bytes.new ≡ with_number (byte_bits_of bytes.old) (8 * at) 64 word }
{
    bytes[at..at + 8].copy_from_slice(&word.to_le_bytes());
}

/// The four bytes from byte `at` on as a number, the lowest first.
#[inline(always)]
fn load4(bytes: &[u8], at: usize) -> u32
    requires { at + 4 ≤ length bytes.now }
    ensures { result ≡ number_at (byte_bits_of bytes.now) (8 * at) 32 }
{
    u32::from_le_bytes([bytes[at], bytes[at + 1], bytes[at + 2], bytes[at + 3]])
}

/// Replaces the four bytes from byte `at` on by the bytes of `word`, the lowest first.
#[inline(always)]
fn store4(bytes: &mut [u8], at: usize, word: u32)
    requires { at + 4 ≤ length bytes.old }
    ensures { byte_bits_of bytes.new ≡ with_number (byte_bits_of bytes.old) (8 * at) 32 word }
{
    bytes[at..at + 4].copy_from_slice(&word.to_le_bytes());
}

/// The bits from `first_bit` to the end of the eight bytes that begin with its byte, as a number, lowest first: 57
/// bits or more.
///
/// # Conditions
/// There are eight bytes from byte `first_bit / 8` on.
#[inline(always)]
pub fn get_bits57(bytes: &[u8], first_bit: usize) -> u64
    requires { first_bit / 8 + 8 ≤ length bytes.now }
    ensures { result ≡ number_of_bits (byte_window (byte_bits_of bytes.now) first_bit 8) }
{
    load8(bytes, first_bit / 8) >> (first_bit % 8)
}

/// Makes each bit from `first_bit` to the end of the eight bytes that begin with its byte true where it was, or where
/// that bit of `value` is 1, lowest first. All other bits stay, and bits of `value` past the eight bytes are lost.
///
/// # Conditions
/// There are eight bytes from byte `first_bit / 8` on.
#[inline(always)]
pub fn init_bits57(bytes: &mut [u8], first_bit: usize, value: u64)
    requires { first_bit / 8 + 8 ≤ length bytes.old }
    ensures { byte_bits_of bytes.new ≡ with_window (byte_bits_of bytes.old) first_bit 8 value 0 }
{
    let at = first_bit / 8;
    let word = load8(&*bytes, at) | (value << (first_bit % 8));
    store8(bytes, at, word);
}

/// Makes each bit from `first_bit` to the end of the eight bytes that begin with its byte that bit of `value` where
/// that bit of `len_mask` is 1, lowest first, and elsewhere does as `init_bits57`. All other bits stay.
///
/// # Conditions
/// There are eight bytes from byte `first_bit / 8` on.
#[inline(always)]
pub fn set_bits57(bytes: &mut [u8], first_bit: usize, value: u64, len_mask: u64)
    requires { first_bit / 8 + 8 ≤ length bytes.old }
    ensures { byte_bits_of bytes.new
        ≡ with_window (byte_bits_of bytes.old) first_bit 8 value len_mask }
{
    let at = first_bit / 8;
    let shift = first_bit % 8;
    let word = load8(&*bytes, at) & !(len_mask << shift) | (value << shift);
    store8(bytes, at, word);
}

/// The bits from `first_bit` to the end of the four bytes that begin with its byte, as a number, lowest first: 25 bits
/// or more.
///
/// # Conditions
/// There are four bytes from byte `first_bit / 8` on.
#[inline(always)]
pub fn get_bits25(bytes: &[u8], first_bit: usize) -> u32
    requires { first_bit / 8 + 4 ≤ length bytes.now }
    ensures { result ≡ number_of_bits (byte_window (byte_bits_of bytes.now) first_bit 4) }
{
    load4(bytes, first_bit / 8) >> (first_bit % 8)
}

/// Makes each bit from `first_bit` to the end of the four bytes that begin with its byte true where it was, or where
/// that bit of `value` is 1, lowest first. All other bits stay, and bits of `value` past the four bytes are lost.
///
/// # Conditions
/// There are four bytes from byte `first_bit / 8` on.
#[inline(always)]
pub fn init_bits25(bytes: &mut [u8], first_bit: usize, value: u32)
    requires { first_bit / 8 + 4 ≤ length bytes.old }
    ensures { byte_bits_of bytes.new ≡ with_window (byte_bits_of bytes.old) first_bit 4 value 0 }
{
    let at = first_bit / 8;
    let word = load4(&*bytes, at) | (value << (first_bit % 8));
    store4(bytes, at, word);
}

/// Makes each bit from `first_bit` to the end of the four bytes that begin with its byte that bit of `value` where that
/// bit of `len_mask` is 1, lowest first, and elsewhere does as `init_bits25`. All other bits stay.
///
/// # Conditions
/// There are four bytes from byte `first_bit / 8` on.
#[inline(always)]
pub fn set_bits25(bytes: &mut [u8], first_bit: usize, value: u32, len_mask: u32)
    requires { first_bit / 8 + 4 ≤ length bytes.old }
    ensures { byte_bits_of bytes.new
        ≡ with_window (byte_bits_of bytes.old) first_bit 4 value len_mask }
{
    let at = first_bit / 8;
    let shift = first_bit % 8;
    let word = load4(&*bytes, at) & !(len_mask << shift) | (value << shift);
    store4(bytes, at, word);
}

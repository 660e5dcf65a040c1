//! The numbers that digits write.
ghost use Rattle.std.specs.Prelude.{◌≡◌, ◌≤◌};
ghost use Rattle.program_base.specs.Text.{digit_of, number_of, decimal_of, hexadecimal_of};

/// The value of a digit.
fn digit_value(byte: u8, radix: u32) -> Option<u64>
    requires low { 2 ≤ radix }
    requires high { radix ≤ 16 }
    ensures { result ≡ digit_of radix byte }
{
    let digit = char::from(byte).to_digit(radix)?;
    Some(u64::from(digit))
}

/// The number that the digits write, where there are at most `most` of them and it is below 2^64.
fn number(digits: &[u8], radix: u32, most: usize) -> Option<u64>
    requires low { 2 ≤ radix }
    requires high { radix ≤ 16 }
    ensures { result ≡ number_of radix most digits.now }
{
    if digits.is_empty() || digits.len() > most {
        return None;
    }
    let mut value = 0u64;
    for byte in digits {
        let next = digit_value(*byte, radix)?;
        value = value.checked_mul(u64::from(radix))?.checked_add(next)?;
    }
    Some(value)
}

/// The number that 1 to 20 decimal digits write, where it is below 2^64.
///
/// ```
/// decimal(b"007".as_slice());   // Some(7)
/// decimal(b"-7".as_slice());    // None
/// ```
pub fn decimal(digits: &[u8]) -> Option<u64>
    ensures { result ≡ decimal_of digits.now }
{
    number(digits, 10, 20)
}

/// The number that 1 to 16 hexadecimal digits of either case write.
///
/// ```
/// hexadecimal(b"Ff".as_slice());    // Some(255)
/// hexadecimal(b"0x1".as_slice());   // None
/// ```
pub fn hexadecimal(digits: &[u8]) -> Option<u64>
    ensures { result ≡ hexadecimal_of digits.now }
{
    number(digits, 16, 16)
}

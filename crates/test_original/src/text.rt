//! The words of a line, and the numbers that they write.
ghost use Rattle.std.specs.Prelude.{◌≤◌, IfOk};

use crate::fault::Fault;
use std::alloc::Global;

/// How numbers are written.
#[derive(Clone, Copy)]
pub enum Base {
    Decimal,
    Hexadecimal,
}

/// How many items of a run are believed.
const MOST_ITEMS: u64 = 1 << 27;

/// What stands before a sign of a text, and what stands after it; `None` where there is no such sign.
fn cut<'a>(text: &'a str, sign: &'static str) -> Option<(&'a str, &'a str)> {
    text.split_once(sign)
}

/// What stands before a sign of a text, and what stands after it.
pub fn parts<'a>(text: &'a str, sign: &'static str) -> Result<(&'a str, &'a str), Fault> {
    cut(text, sign).ok_or(Fault::Malformed)
}

/// The first word of a text, and what follows the space after it.
pub fn first_word(text: &str) -> (&str, &str) {
    match cut(text, " ") {
        Some(parts) => parts,
        None => (text, ""),
    }
}

/// The number that a word writes.
pub fn number(text: &str, base: Base) -> Result<u64, Fault> {
    let number = match base {
        Base::Decimal => u64::from_str_radix(text, 10),
        Base::Hexadecimal => u64::from_str_radix(text, 16),
    };
    number.ok().ok_or(Fault::Malformed)
}

/// The number that a word writes, or `None` for `-`.
pub fn answer(text: &str, base: Base) -> Result<Option<u64>, Fault> {
    if text == "-" {
        return Ok(None);
    }
    Ok(Some(number(text, base)?))
}

/// The position or index that a word writes.
pub fn position(text: &str) -> Result<usize, Fault> {
    Ok(number(text, Base::Decimal)? as usize)
}

/// The width that a word writes, which is at most `most`.
pub fn width(text: &str, most: u8) -> Result<u8, Fault>
    ensures { IfOk result (λ width. width ≤ most) }
{
    let width = number(text, Base::Decimal)?;
    if width <= u64::from(most) {
        Ok(width as u8)
    } else {
        Err(Fault::Condition)
    }
}

/// The number of 32 bits that a word writes.
pub fn short_number(text: &str) -> Result<u32, Fault> {
    let number = number(text, Base::Hexadecimal)?;
    u32::try_from(number).ok().ok_or(Fault::Malformed)
}

/// What stands before a sign of a word, and the number after it, or a number for no such sign.
fn counted<'a>(
    text: &'a str,
    sign: &'static str,
    base: Base,
    otherwise: u64,
) -> Result<(&'a str, u64), Fault> {
    match cut(text, sign) {
        Some((item, digits)) => Ok((item, number(digits, base)?)),
        None => Ok((text, otherwise)),
    }
}

/// Adds the items of a run to a list: `first`, and then each greater by `step` than the one before it.
fn push_run(items: &mut Vec<u64>, first: u64, step: u64, count: u64) -> Result<(), Fault> {
    if count > MOST_ITEMS {
        return Err(Fault::Malformed);
    }
    for index in 0..count {
        let more = step.checked_mul(index).ok_or(Fault::Malformed)?;
        items.push(first.checked_add(more).ok_or(Fault::Malformed)?)?;
    }
    Ok(())
}

/// Adds what a word of a list writes: X, X*COUNT or X+STEP*COUNT.
fn push_word(items: &mut Vec<u64>, word: &str, base: Base) -> Result<(), Fault> {
    let (item, count) = counted(word, "*", Base::Decimal, 1)?;
    let (first, step) = counted(item, "+", base, 0)?;
    push_run(items, number(first, base)?, step, count)
}

/// The items of a list.
pub fn list(alloc: Global, text: &str, base: Base) -> Result<Vec<u64>, Fault> {
    let mut items = Vec::new(alloc);
    for word in text.split_ascii_whitespace() {
        push_word(&mut items, word, base)?;
    }
    Ok(items)
}

/// The bytes of a list.
pub fn byte_list(alloc: Global, text: &str) -> Result<Vec<u8>, Fault> {
    let mut bytes = Vec::new(alloc);
    for item in list(alloc, text, Base::Hexadecimal)?.iter() {
        bytes.push(u8::try_from(*item).ok().ok_or(Fault::Malformed)?)?;
    }
    Ok(bytes)
}

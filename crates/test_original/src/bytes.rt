//! Reads and writes of bytes: the kinds `get57`, `init57`, `set57`, `get25`, `init25` and `set25`.
use crate::content::State;
use crate::fault::Fault;
use crate::found::{Found, List};
use crate::text;
use crate::text::Base;
use bitm::{get_bits25, get_bits57, init_bits25, init_bits57, set_bits25, set_bits57};
use std::alloc::Global;

/// What a read of eight or of four bytes gives.
fn read(bytes: &[u8], position: usize, is_long: bool) -> Result<u64, Fault> {
    if is_long && position / 8 + 8 <= bytes.len() {
        Ok(get_bits57(bytes, position))
    } else if !is_long && position / 8 + 4 <= bytes.len() {
        Ok(u64::from(get_bits25(bytes, position)))
    } else {
        Err(Fault::Condition)
    }
}

/// Compares what a read of eight or of four bytes gives.
pub fn get<'a>(
    state: &State<'a>,
    line: &'a str,
    is_long: bool,
    found: &mut Found<'a>,
) -> Result<(), Fault> {
    let (first_bit, theirs) = text::first_word(line);
    let ours = read(state.bytes(), text::position(first_bit)?, is_long)?;
    found.compare(first_bit, Base::Hexadecimal, Some(ours), theirs)
}

/// A write of bytes: of a number to eight or four zero bytes, or of one under a mask over eight or four bytes.
#[derive(Clone, Copy)]
pub enum Change {
    Init57,
    Init25,
    Set57,
    Set25,
}

/// Writes a number to eight zero bytes.
fn init57(bytes: &mut [u8], position: usize, number: &str) -> Result<(), Fault> {
    if position / 8 + 8 > bytes.len() {
        return Err(Fault::Condition);
    }
    init_bits57(bytes, position, text::number(number, Base::Hexadecimal)?);
    Ok(())
}

/// Writes a number to four zero bytes.
fn init25(bytes: &mut [u8], position: usize, number: &str) -> Result<(), Fault> {
    if position / 8 + 4 > bytes.len() {
        return Err(Fault::Condition);
    }
    init_bits25(bytes, position, text::short_number(number)?);
    Ok(())
}

/// Puts a number over eight bytes under a mask.
fn set57(bytes: &mut [u8], position: usize, numbers: &str) -> Result<(), Fault> {
    if position / 8 + 8 > bytes.len() {
        return Err(Fault::Condition);
    }
    let (number, mask) = text::first_word(numbers);
    let value = text::number(number, Base::Hexadecimal)?;
    let mask = text::number(mask, Base::Hexadecimal)?;
    set_bits57(bytes, position, value, mask);
    Ok(())
}

/// Puts a number over four bytes under a mask.
fn set25(bytes: &mut [u8], position: usize, numbers: &str) -> Result<(), Fault> {
    if position / 8 + 4 > bytes.len() {
        return Err(Fault::Condition);
    }
    let (number, mask) = text::first_word(numbers);
    let (value, mask) = (text::short_number(number)?, text::short_number(mask)?);
    set_bits25(bytes, position, value, mask);
    Ok(())
}

/// The bytes that a write is to: as many zero bytes as a text writes bytes, or the bytes of a line before.
fn begin(alloc: Global, state: &State<'_>, change: Change, theirs: &str) -> Result<Vec<u8>, Fault> {
    if matches!(change, Change::Set57 | Change::Set25) {
        return Ok(Vec::from_slice(alloc, state.bytes())?);
    }
    let count = text::byte_list(alloc, theirs)?.len();
    Ok(vec![in alloc; 0u8; count]?)
}

/// Makes a write of the numbers of a line.
fn write(change: Change, bytes: &mut [u8], position: usize, numbers: &str) -> Result<(), Fault> {
    match change {
        Change::Init57 => init57(bytes, position, numbers),
        Change::Init25 => init25(bytes, position, numbers),
        Change::Set57 => set57(bytes, position, numbers),
        Change::Set25 => set25(bytes, position, numbers),
    }
}

/// Compares the bytes after a write.
pub fn compare<'a>(
    alloc: Global,
    state: &State<'a>,
    line: &'a str,
    change: Change,
    found: &mut Found<'a>,
) -> Result<(), Fault> {
    let (text, theirs) = text::parts(line, " /")?;
    let (first_bit, numbers) = text::first_word(text);
    let position = text::position(first_bit)?;
    let mut ours = begin(alloc, state, change, theirs)?;
    write(change, ours.as_mut_slice(), position, numbers)?;
    found.compare_list(
        alloc,
        text,
        Base::Hexadecimal,
        List::Bytes(ours.as_slice()),
        theirs,
    )
}

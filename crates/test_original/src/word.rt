//! Numbers and single words: the kinds `ceil`, `store` and `sel64`.
use crate::fault::Fault;
use crate::found::{Found, List};
use crate::text;
use crate::text::Base;
use bitm::{bits_to_store, ceiling_div, select64};
use std::alloc::{AllocError, Global};

/// Compares a division that rounds up.
pub fn ceil<'a>(line: &'a str, found: &mut Found<'a>) -> Result<(), Fault> {
    let (n, rest) = text::first_word(line);
    let (d, theirs) = text::first_word(rest);
    let (n, d) = (text::position(n)?, text::position(d)?);
    if d == 0 {
        return Err(Fault::Condition);
    }
    let ours = ceiling_div(n, d) as u64;
    found.compare(line, Base::Decimal, Some(ours), theirs)
}

/// Compares how many binary digits a number has.
pub fn store<'a>(line: &'a str, found: &mut Found<'a>) -> Result<(), Fault> {
    let (number, theirs) = text::first_word(line);
    let ours = bits_to_store(text::number(number, Base::Decimal)?);
    found.compare(number, Base::Decimal, Some(u64::from(ours)), theirs)
}

/// The positions of the 1 bits of a word, rising.
fn positions(alloc: Global, n: u64) -> Result<Vec<u64>, AllocError> {
    let mut positions = Vec::new(alloc);
    for rank in 0..n.count_ones() as u8 {
        positions.push(u64::from(select64(n, rank)))?;
    }
    Ok(positions)
}

/// Compares the positions of the 1 bits of a word.
pub fn sel64<'a>(alloc: Global, line: &'a str, found: &mut Found<'a>) -> Result<(), Fault> {
    let (word, theirs) = text::first_word(line);
    let n = text::number(word, Base::Hexadecimal)?;
    let ours = positions(alloc, n)?;
    found.compare_list(
        alloc,
        word,
        Base::Decimal,
        List::Words(ours.as_slice()),
        theirs,
    )
}

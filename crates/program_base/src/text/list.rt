//! The numbers of a text, one a line.
ghost use Rattle.std.specs.Prelude.{◌≡◌, IfErr, IfOk, None};
ghost use Rattle.program_base.specs.List.{is_number_line, numbers_in_lines, wrong_line, IsListError};

use crate::text::digits::decimal;
use crate::text::lines::Lines;
use std::alloc::{AllocError, Global};
use std::error::Error;
use std::fmt;

/// Why a text is no list of numbers.
#[derive(Clone, Copy, Debug, PartialEq, Eq)]
pub enum ListError {
    /// This line, the first being 0, neither is empty nor has just a number.
    WrongLine(usize),
    /// Memory was refused.
    NoMemory,
}

impl fmt::Display for ListError {
    ghost use Rattle.std.specs.Prelude.{Some};
    ghost use Rattle.program_base.specs.List.{list_error_text};

    ghost output = { λ e. Some (list_error_text e) };

    fn fmt<W: fmt::Write>(&self, f: &mut fmt::Formatter<W>) -> fmt::Result {
        match self {
            ListError::WrongLine(line) => write!(f, "line {}: not a number", *line as u128 + 1),
            ListError::NoMemory => write!(f, "memory was refused"),
        }
    }
}

impl Error for ListError {}

impl From<AllocError> for ListError {
    ghost use Rattle.std.specs.Prelude.{◌≡◌};
    ghost use Rattle.program_base.specs.declared.text.list.ListError.TheVariants.{NoMemory};

    ghost from_gives = { λ _ e. e ≡ NoMemory };

    fn from(_error: AllocError) -> ListError {
        ListError::NoMemory
    }
}

/// Whether a line is empty, or has just a number.
fn is_number_line(line: &[u8]) -> bool
    ensures { result ≡ is_number_line line.now }
{
    line.is_empty() || decimal(line).is_some()
}

/// The first line that neither is empty nor has just a number.
fn wrong_line(text: &[u8]) -> Option<usize>
    ensures { result ≡ wrong_line text.now }
{
    Lines::new(text).position(|line| !is_number_line(line))
}

/// The numbers of a text in which each line (`Lines`) is empty or has just one, of 1 to 20 decimal digits and below
/// 2^64.
///
/// # Errors
/// `WrongLine` exactly where a line has something else, with the first such line; else `NoMemory` where the numbers
/// find no memory.
/// # Cost
/// Two passes over the text (evident from the code).
///
/// ```
/// numbers(alloc, b"3\n14\n".as_slice());   // Ok(..) of 3 and 14
/// numbers(alloc, b"3\nx\n".as_slice());    // Err(ListError::WrongLine(1))
/// ```
pub fn numbers(alloc: Global, text: &[u8]) -> Result<Vec<u64>, ListError>
    ensures right { IfOk result (λ _. wrong_line text.now ≡ None) }
    ensures numbers { IfOk result (λ v. v.items ≡ numbers_in_lines text.now) }
    ensures error { IfErr result (λ e. IsListError text.now e) }
{
    match wrong_line(text) {
        Some(line) => Err(ListError::WrongLine(line)),
        None => Ok(collect_numbers(alloc, text)?),
    }
}

/// The numbers of the lines that have just one.
fn collect_numbers(alloc: Global, text: &[u8]) -> Result<Vec<u64>, AllocError>
    ensures { IfOk result (λ numbers. numbers.items ≡ numbers_in_lines text.now) }
{
    let mut numbers = Vec::new(alloc);
    numbers.extend(Lines::new(text).filter_map(decimal))?;
    Ok(numbers)
}

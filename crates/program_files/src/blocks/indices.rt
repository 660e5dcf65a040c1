//! Lists of numbers in memory that is found for them.
ghost use Rattle.std.specs.Prelude.{◌≡◌, IfOk, replicate};

use std::alloc::{AllocError, Global};

/// The same numbers, as indices.
pub(crate) fn indices_of(alloc: Global, numbers: &[u64]) -> Result<Vec<usize>, AllocError>
    ensures { IfOk result (λ indices. indices.items ≡ numbers.now) }
{
    let mut indices = Vec::with_capacity(alloc, numbers.len())?;
    for number in numbers {
        indices.push(*number as usize)?;
    }
    Ok(indices)
}

/// The given number of zeros.
pub(crate) fn zeros(alloc: Global, count: usize) -> Result<Vec<u64>, AllocError>
    ensures { IfOk result (λ words. words.items ≡ replicate count 0) }
{
    let mut words = Vec::new(alloc);
    words.resize(count, 0)?;
    Ok(words)
}

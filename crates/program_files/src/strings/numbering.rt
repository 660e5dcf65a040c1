//! The block of strings that stand one after another.
ghost use Rattle.std.specs.Prelude.{IfErr, IfOk};
ghost use Rattle.program_files.specs.StringsBuilding.{IsBuildFailure, IsStringsOf};

use crate::strings::failure::Failure;
use hash_block::Added;
use hash_block::strings::{build as build_strings, hashes};
use perfect_hash::build as build_hash;
use perfect_hash::levels::BuildError;
use std::alloc::Global;

/// How many bits a level of the hash has for each 100 strings.
const PERCENT: u16 = 100;

/// The block of a perfect hash of the hashes of strings, by a seed.
fn hash_of(alloc: Global, seed: u64, bytes: &[u8], ends: &[usize]) -> Result<Vec<u64>, Failure>
    ensures { IfErr result IsBuildFailure }
{
    let mut sums = vec![in alloc; 0u64; ends.len()]?;
    hashes(seed, bytes, ends, sums.as_mut_slice());
    let made = match build_hash(alloc, Added { seed: 0 }, sums.as_slice(), PERCENT) {
        Ok(made) => made,
        Err(refused) => return Err(failure_of(refused.error)),
    };
    let words = made.index().content().as_slice().len();
    let Some(len) = hash_block::size(words, made.sizes().len()) else {
        return Err(Failure::TooLarge);
    };
    let mut block = vec![in alloc; 0u64; len]?;
    match hash_block::build_of(&made, seed, block.as_mut_slice()) {
        Ok(()) => Ok(block),
        Err(_) => Err(Failure::TooLarge),
    }
}

/// Why there is no block where there is no hash.
fn failure_of(error: BuildError) -> Failure
    ensures { IsBuildFailure result }
{
    match error {
        BuildError::KeysCollide(_) => Failure::EqualLines,
        BuildError::TooLarge => Failure::TooLarge,
        BuildError::OutOfMemory => Failure::NoMemory,
    }
}

/// The block of strings, by a seed of their hashes.
fn block_by(alloc: Global, seed: u64, bytes: &[u8], ends: &[usize]) -> Result<Vec<u64>, Failure>
    ensures block { IfOk result (λ block. IsStringsOf bytes.now ends.now block.items) }
    ensures failure { IfErr result IsBuildFailure }
{
    let of_hash = hash_of(alloc, seed, bytes, ends)?;
    let Some(hash) = hash_block::open(of_hash.as_slice()) else {
        return Err(Failure::TooLarge);
    };
    let (words, levels) = (hash.tables().words().len(), hash.sizes().len());
    let Some(len) = hash_block::strings::size(words, levels, ends.len(), bytes.len()) else {
        return Err(Failure::TooLarge);
    };
    let mut block = vec![in alloc; 0u64; len]?;
    match build_strings(&hash, bytes, ends, block.as_mut_slice()) {
        Ok(()) => Ok(block),
        Err(_) => Err(Failure::EqualLines),
    }
}

/// The block of strings, by the first seed of two that gives each of them a hash of its own.
pub(crate) fn block_of(alloc: Global, bytes: &[u8], ends: &[usize]) -> Result<Vec<u64>, Failure>
    ensures block { IfOk result (λ block. IsStringsOf bytes.now ends.now block.items) }
    ensures failure { IfErr result IsBuildFailure }
{
    match block_by(alloc, 0, bytes, ends) {
        Err(Failure::EqualLines) => block_by(alloc, 1, bytes, ends),
        done => done,
    }
}

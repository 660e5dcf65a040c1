//! The numbers of a list of hashes over any source: words, tables and sizes may hold anything. The hashes go from level
//! to level side by side, and then their ranks, so that each waits for memory while the others do.
ghost use Rattle.std.specs.Prelude.{◌≡◌, ◌+◌, ◌*◌, ◌-◌, ◌^◌, ◌<◌, ◌≤◌, ℕ, length, slice_index, take};
ghost use Rattle.bitm_tables.specs.Reads.{OnlyReads};
ghost use Rattle.bitm_tables.specs.Tables.{bits_in, HasSizes};
ghost use Rattle.perfect_hash.specs.Listed.{AreCoded, AreNumberCodes, IsCode};
ghost use Rattle.perfect_hash.specs.Many.{AreLevelsInside};
ghost use Rattle.perfect_hash.specs.Placed.{FitIn};

use crate::levels::Placing;
use crate::many::find_positions;
use crate::querying::BySource;
use bitm_select::many::lists::total_rank_many_on;
use bitm_select::search::selected::{NO_ANSWER, WRONG_TABLES};
use bitm_tables::source::TableSource;
use tuning::RANKS_SIDE_BY_SIDE;

/// How many levels, from the first on, have words and lie within the words that there are.
fn levels_within(words: usize, sizes: &[usize]) -> usize
    ensures few { result ≤ length sizes.now }
    ensures within { FitIn words (take result sizes.now) }
    ensures all { FitIn words sizes.now → result ≡ length sizes.now }
{
    let mut used = 0;
    for (level, size) in sizes.iter().enumerate() {
        if *size == 0 || *size > words - used {
            return level;
        }
        used += *size;
    }
    sizes.len()
}

/// The code of a number: `absent` where the hash has no position, and `WRONG_TABLES` where its rank is not below
/// `count`.
#[inline(always)]
fn code_of(position: usize, rank: usize, count: usize, absent: usize) -> usize
    ensures { IsCode position rank count absent result }
{
    if position == NO_ANSWER {
        absent
    } else if rank < count {
        rank
    } else {
        WRONG_TABLES
    }
}

/// Puts the code of a number in the place of each rank.
#[inline(always)]
fn code_each(positions: &[usize], count: usize, absent: usize, numbers: &mut [usize])
    requires same_length { length positions.now ≡ length numbers.old }
    ensures { (k : ℕ) → k < length numbers.old → IsCode (slice_index positions.now k)
        (slice_index numbers.old k) count absent (slice_index numbers.new k) }
{
    for k in 0..numbers.len() {
        numbers[k] = code_of(positions[k], numbers[k], count, absent);
    }
}

/// The numbers of no more hashes than go side by side, where all levels are within the words: `absent` for a hash that
/// falls on no 1 bit, and `WRONG_TABLES` for a rank that is not below `count`.
#[inline(always)]
fn number_block_on<T: TableSource, P: Placing>(
    source: &mut T,
    placing: &P,
    sizes: &[usize],
    count: usize,
    absent: usize,
    hashes: &[u64],
    numbers: &mut [usize],
)
    requires sized { HasSizes (T.lists source.old) }
    requires sizes { AreLevelsInside sizes.now (bits_in (T.lists source.old)) }
    requires same_length { length numbers.old ≡ length hashes.now }
    requires few { length hashes.now ≤ 32 }
    ensures coded { AreCoded (P.fall placing.now) sizes.now count absent (T.lists source.old)
        hashes.now numbers.new }
    ensures reads { OnlyReads T.lists T.reads source.old source.new (length hashes.now)
        (length hashes.now) (length hashes.now * (length sizes.now + 8)) }
{
    // Of ones: the compiler would fill arrays of zeros by `memset`, which the archive for C does without.
    let waiting = &mut [1usize; RANKS_SIDE_BY_SIDE];
    let mut room = [1usize; RANKS_SIDE_BY_SIDE];
    let positions = &mut room[..hashes.len()];
    find_positions(
        &BySource,
        &mut *source,
        placing,
        sizes,
        hashes,
        &mut *positions,
        waiting,
    );
    total_rank_many_on::<1, T>(source, &*positions, &mut *numbers);
    code_each(&*positions, count, absent, numbers);
}

/// As `total_numbers_on`, where all levels are within the words, and a hash that falls on no 1 bit gets `absent`.
fn number_each_on<T: TableSource, P: Placing>(
    source: &mut T,
    placing: &P,
    sizes: &[usize],
    count: usize,
    absent: usize,
    hashes: &[u64],
    numbers: &mut [usize],
)
    requires sized { HasSizes (T.lists source.old) }
    requires sizes { AreLevelsInside sizes.now (bits_in (T.lists source.old)) }
    requires same_length { length numbers.old ≡ length hashes.now }
    ensures coded { AreCoded (P.fall placing.now) sizes.now count absent (T.lists source.old)
        hashes.now numbers.new }
    ensures reads { OnlyReads T.lists T.reads source.old source.new (length hashes.now)
        (length hashes.now) (length hashes.now * (length sizes.now + 8)) }
{
    let mut from = 0;
    while from < hashes.len() {
        let to = from + (hashes.len() - from).min(RANKS_SIDE_BY_SIDE);
        let part = &mut numbers[from..to];
        number_block_on(
            &mut *source,
            placing,
            sizes,
            count,
            absent,
            &hashes[from..to],
            part,
        );
        from = to;
    }
}

/// Writes for each hash what `total_number_on` answers where `placing` says where hashes fall: its number,
/// `NO_ANSWER` for `Absent`, or `WRONG_TABLES` for `Wrong`. 32 hashes go from level to level side by side.
///
/// # Conditions
/// There are fewer than 2^58 words, the tables have the right lengths, and there are no more than 256 sizes; `count` is
/// at most `WRONG_TABLES`, and `numbers` as long as `hashes`.
/// # Cost
/// For each hash at most one word a level is read, and what `rank_on` reads: one upper entry, one lower entry and eight
/// words.
pub fn total_numbers_on<T: TableSource, P: Placing>(
    source: &mut T,
    placing: &P,
    sizes: &[usize],
    count: usize,
    hashes: &[u64],
    numbers: &mut [usize],
)
    requires sized { HasSizes (T.lists source.old) }
    requires few { length sizes.now ≤ 256 }
    requires count { count ≤ 2 ^ 64 - 2 }
    requires same_length { length numbers.old ≡ length hashes.now }
    ensures numbers { AreNumberCodes (P.fall placing.now) sizes.now count (T.lists source.old)
        hashes.now numbers.new }
    ensures reads { OnlyReads T.lists T.reads source.old source.new (length hashes.now)
        (length hashes.now) (length hashes.now * (length sizes.now + 8)) }
{
    let levels = levels_within(source.words_len(), sizes);
    let absent = if levels == sizes.len() {
        NO_ANSWER
    } else {
        WRONG_TABLES
    };
    number_each_on(
        source,
        placing,
        &sizes[..levels],
        count,
        absent,
        hashes,
        numbers,
    );
}

//! Answers of an index with the reads that they took, as a user of the library writes them.
ghost use Rattle.std.specs.Prelude.{◌+◌, length, true};
ghost use Rattle.bitm.specs.Bits.{bits_of, digit_count};
ghost use Rattle.bitm.specs.Count.{IsRank, IsSelect};
ghost use Rattle.bitm.specs.Reads.{none_read, ReadsAtMost};
ghost use Rattle.bitm.specs.Tables.{upper_of};

use bitm::{BinaryRankSearch, RankSelect101111, ReadCounts, rank_on};

/// An index over borrowed words, which selects by binary search.
type Borrowed<'a> = RankSelect101111<BinaryRankSearch, BinaryRankSearch, &'a [u64]>;

/// The position of the 1 bit with exactly `rank` 1 bits before it, `None` exactly where there is none, and the reads.
pub fn select_with_reads(index: &Borrowed<'_>, rank: usize) -> (Option<usize>, ReadCounts)
    ensures answer { IsSelect (bits_of index.now.content.now) true rank result.0 }
    ensures reads { let uppers = length (upper_of (bits_of index.now.content.now)) in
        ReadsAtMost none_read result.1 (digit_count uppers + 1) 23 8 }
{
    let mut probe = index.probe();
    let answer = index.select_support().select_counted(&mut probe, rank);
    (answer, probe.into_reads())
}

/// The number of 1 bits among the first `position` bits, `None` exactly where there are fewer bits, and the reads.
pub fn rank_with_reads(index: &Borrowed<'_>, position: usize) -> (Option<usize>, ReadCounts)
    ensures answer { IsRank (bits_of index.now.content.now) position result.0 }
    ensures reads { ReadsAtMost none_read result.1 1 1 8 }
{
    let mut probe = index.probe();
    let answer = rank_on(&mut probe, position);
    (answer, probe.into_reads())
}

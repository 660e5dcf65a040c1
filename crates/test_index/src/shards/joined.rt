//! Each query of a few shards, empty ones too, beside a walk over the joined bits.
use crate::shards::made::{Made, before, joined, shards, views};
use bitm_view::{IndexView, NO_ANSWER, WRONG_TABLES};
use sharded_index::{Answer, Kind, PrefixCounts, ShardedIndex};
use std::alloc::Global;
use std::process::Abort;
use std::test::Fail;

/// How many bits are before a position, and of a kind.
fn walked_rank(bits: &[bool], one: bool, position: usize) -> Answer<usize> {
    if position > bits.len() {
        return Answer::Absent;
    }
    let mut count = 0usize;
    for at in 0..position {
        count = count.wrapping_add((bits[at] == one) as usize);
    }
    Answer::Found(count)
}

/// The position with a rank.
fn walked_select(bits: &[bool], one: bool, rank: usize) -> Answer<usize> {
    let mut left = rank;
    for at in 0..bits.len() {
        if bits[at] == one {
            if left == 0 {
                return Answer::Found(at);
            }
            left = left.wrapping_sub(1);
        }
    }
    Answer::Absent
}

/// The first position from `from` on.
fn walked_next(bits: &[bool], one: bool, from: usize) -> Answer<usize> {
    for at in 0..bits.len() {
        if at >= from && bits[at] == one {
            return Answer::Found(at);
        }
    }
    Answer::Absent
}

/// The last position up to `from`.
fn walked_previous(bits: &[bool], one: bool, from: usize) -> Answer<usize> {
    let mut last = Answer::Absent;
    for at in 0..bits.len() {
        if at <= from && bits[at] == one {
            last = Answer::Found(at);
        }
    }
    last
}

/// The code of an answer in a list.
fn code(answer: Answer<usize>) -> usize {
    match answer {
        Answer::Found(number) => number,
        Answer::Absent => NO_ANSWER,
        Answer::Wrong => WRONG_TABLES,
    }
}

/// Whether each single query at a number agrees with a walk over the joined bits.
fn agrees_at(index: &ShardedIndex<'_, IndexView<'_>>, bits: &[bool], one: bool, at: usize) -> bool {
    index.rank(one, at) == walked_rank(bits, one, at)
        && index.select(one, at) == walked_select(bits, one, at)
        && index.next(one, at) == walked_next(bits, one, at)
        && index.previous(one, at) == walked_previous(bits, one, at)
}

/// Whether lists agree with walks over the joined bits, with this room.
fn lists_agree(
    index: &ShardedIndex<'_, IndexView<'_>>,
    bits: &[bool],
    one: bool,
    queries: &[usize],
    out: &mut [usize],
    room: &mut [usize],
) -> bool {
    let mut agrees = index.rank_list(one, queries, &mut *out, &mut *room);
    for at in 0..queries.len().min(out.len()) {
        agrees &= out[at] == code(walked_rank(bits, one, queries[at]));
    }
    agrees &= index.select_list(one, queries, &mut *out, room);
    for at in 0..queries.len().min(out.len()) {
        agrees &= out[at] == code(walked_select(bits, one, queries[at]));
    }
    agrees
}

/// As many numbers of no use.
fn room(alloc: Global, len: usize) -> Result<Vec<usize>, Fail> {
    let mut made = Vec::new(alloc);
    for at in 0..len {
        made.push(at.wrapping_mul(7))?;
    }
    Ok(made)
}

/// Whether all queries agree with walks over the joined bits; `None` where the lengths are not right.
fn agrees(alloc: Global, made: &[Made]) -> Result<bool, Fail> {
    let bits = joined(alloc, made)?;
    let lens = before(alloc, made, false)?;
    let ones = before(alloc, made, true)?;
    let shards = views(alloc, made)?;
    let Some(counts) = PrefixCounts::over(lens.as_slice(), ones.as_slice()) else {
        return Ok(false);
    };
    if counts.shards() != shards.len() {
        return Ok(false);
    }
    let index = ShardedIndex {
        counts,
        shards: shards.as_slice(),
    };
    let queries = mixed(alloc, bits.len())?;
    let len = queries.len();
    let mut out = room(alloc, len)?;
    let enough = len
        .saturating_mul(3)
        .saturating_add(shards.len())
        .saturating_add(1);
    let mut agrees = true;
    for one in [false, true] {
        for at in 0..len {
            agrees &= agrees_at(&index, bits.as_slice(), one, at);
        }
        for short in [0, 1, enough] {
            let mut room = room(alloc, enough.saturating_sub(short))?;
            agrees &= lists_agree(
                &index,
                bits.as_slice(),
                one,
                queries.as_slice(),
                out.as_mut_slice(),
                room.as_mut_slice(),
            );
        }
    }
    Ok(agrees)
}

/// The numbers from 0 to two past the end in a mixed order, and the greatest number.
fn mixed(alloc: Global, bits: usize) -> Result<Vec<usize>, Fail> {
    let mut made = Vec::new(alloc);
    let len = bits.saturating_add(3);
    for at in 0..len {
        made.push(at.wrapping_mul(911) % len.max(1))?;
    }
    made.push(usize::MAX)?;
    Ok(made)
}

#[test]
fn shards_of_any_lengths_answer_as_walks_over_their_bits(rt: HostRuntime) -> Result<(), Fail> {
    let lens: [&[usize]; 7] = [
        &[],
        &[0],
        &[130],
        &[0, 0, 65, 0],
        &[64, 64, 64, 64],
        &[100, 0, 1, 63, 70],
        &[1, 150, 2],
    ];
    for lens in lens {
        for kind in [0u64, 3] {
            let made = shards(rt.alloc(), lens, kind)?;
            assert!(rt; agrees(rt.alloc(), made.as_slice())?);
        }
    }
    Ok(())
}

#[test]
fn a_position_is_found_as_by_hand(rt: HostRuntime) -> Result<(), Fail> {
    // shards of 7, 0 and 5 bits, of which 4, 0 and 2 are 1 bits, so 3, 0 and 3 are 0 bits
    let bits = [0u64, 7, 7, 12];
    let ones = [0u64, 4, 4, 6];
    let Some(counts) = PrefixCounts::over(bits.as_slice(), ones.as_slice()) else {
        return Err("the numbers were not taken".into());
    };
    for (kind, number, location) in [
        (Kind::Positions, 6, Some((0, 6))),
        (Kind::Positions, 7, Some((2, 0))),
        (Kind::Positions, 11, Some((2, 4))),
        (Kind::Positions, 12, None),
        (Kind::Ones, 3, Some((0, 3))),
        (Kind::Ones, 4, Some((2, 0))),
        (Kind::Ones, 6, None),
        (Kind::Zeros, 2, Some((0, 2))),
        (Kind::Zeros, 3, Some((2, 0))),
        (Kind::Zeros, 5, Some((2, 2))),
        (Kind::Zeros, 6, None),
    ] {
        let found = match counts.find(kind, number) {
            Answer::Found(location) => Some((location.shard, location.within)),
            Answer::Absent => None,
            Answer::Wrong => return Err("right numbers are wrong".into()),
        };
        assert!(rt; found == location);
    }
    Ok(())
}

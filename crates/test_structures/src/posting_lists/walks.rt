//! Cursors beside a walk over all numbers.
use elias_fano::{BinaryEliasFano, EliasFano};
use postings::{Cursor, Seeker, SliceCursor};
use std::alloc::{AllocError, Global};
use std::process::Abort;
use std::test::Fail;

/// The next number of a sequence that looks random (xorshift).
fn draw(state: &mut u64) -> u64 {
    let mut x = *state;
    x ^= x << 13;
    x ^= x >> 7;
    x ^= x << 17;
    *state = x;
    x
}

/// Numbers, each less than `gap` above the one before; now and then `great` times a gap, or several that are equal.
fn numbers(
    alloc: Global,
    count: u32,
    gap: u64,
    great: u64,
    seed: u64,
) -> Result<Vec<u64>, AllocError> {
    let mut state = seed;
    let mut last = 0u64;
    let mut list = Vec::new(alloc);
    for _ in 0..count {
        let kind = draw(&mut state) % 64;
        let step = draw(&mut state) % gap.max(1);
        let step = if kind == 0 {
            step.wrapping_mul(great)
        } else if kind < 16 {
            0
        } else {
            step
        };
        last = last.saturating_add(step);
        list.push(last)?;
    }
    Ok(list)
}

/// The first number of a list that is at least `v`, by a walk over all, of those from index `at` on; `at` moves there.
fn walk(list: &[u64], at: &mut usize, v: u64) -> Option<u64> {
    for k in *at..list.len() {
        if list[k] >= v {
            *at = k;
            return Some(list[k]);
        }
    }
    *at = list.len();
    None
}

/// Whether a cursor answers rising and falling values, by jumps of up to `jump`, as a walk.
fn agrees<C: Cursor>(cursor: &mut C, list: &[u64], jump: u64, seed: u64) -> bool {
    let mut state = seed;
    let (mut at, mut v) = (0usize, 0u64);
    let mut agrees = true;
    for _ in 0..400u32 {
        v = v.wrapping_add(draw(&mut state) % jump.saturating_add(1).max(1));
        if draw(&mut state) % 50 == 0 {
            // a smaller value leaves the cursor where it is
            v /= 2;
        }
        agrees &= cursor.next_geq(v) == walk(list, &mut at, v);
    }
    agrees
}

#[test]
fn cursors_answer_as_a_walk(rt: HostRuntime) -> Result<(), Fail> {
    for round in 0..16u32 {
        let seed = 88_172_645_463_325_252 + u64::from(round);
        let (count, gap) = (round * 177 % 3000, 1 + u64::from(round) * 7919 % 3000);
        let list = numbers(rt.alloc(), count, gap, 5000, seed)?;
        let sampled = EliasFano::build(rt.alloc(), list.as_slice())?;
        let binary = BinaryEliasFano::build(rt.alloc(), list.as_slice())?;
        for jump in [0u64, 1, 3, 30, 300, 5000, 100_000, 10_000_000] {
            assert!(rt; agrees(&mut Seeker::of(&sampled), list.as_slice(), jump, seed));
            assert!(rt; agrees(&mut Seeker::of(&binary), list.as_slice(), jump, seed));
            let Some(mut slice) = SliceCursor::over(list.as_slice()) else {
                return Err("the numbers rise".into());
            };
            assert!(rt; agrees(&mut slice, list.as_slice(), jump, seed));
        }
    }
    Ok(())
}

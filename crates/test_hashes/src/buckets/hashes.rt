//! Each key has a number of its own; equal keys are named; and what parts of no hash answer.
use hash_buckets::{Answer, BucketsView, BuildError, Level, Made, build};
use std::alloc::{AllocError, Global};
use std::process::Abort;
use std::test::Fail;

/// A level of nothing.
const NONE: Level = Level {
    buckets: 0,
    slots: 0,
    slice: 0,
};

/// What was built of some keys.
#[derive(Drop)]
struct Built {
    levels: Vec<Level>,
    seeds: Vec<u8>,
    free: Vec<u64>,
}

/// Pseudo-random numbers, by xorshift.
fn draws(alloc: Global, count: usize) -> Result<Vec<u64>, AllocError> {
    let mut keys = Vec::with_capacity(alloc, count)?;
    let mut state = 88172645463325252u64;
    for _ in 0..count {
        state ^= state << 13;
        state ^= state >> 7;
        state ^= state << 17;
        keys.push(state)?;
    }
    Ok(keys)
}

/// Builds a hash of the keys.
fn make(alloc: Global, keys: &[u64]) -> Result<Result<Built, BuildError>, AllocError> {
    let room = keys.len() / 4 + 64;
    let mut work = vec![in alloc; 0u64; keys.len()]?;
    let mut sorted = vec![in alloc; 0u64; keys.len()]?;
    let mut ends = vec![in alloc; 0u64; room]?;
    let mut used = vec![in alloc; 0u64; keys.len() / 50 + 8]?;
    let mut levels = vec![in alloc; NONE; 24]?;
    let mut seeds = vec![in alloc; 0u8; room]?;
    let mut free = vec![in alloc; 0u64; room]?;
    if used.len() >= 1 << 52 {
        return Err(AllocError);
    }
    match build(
        keys,
        work.as_mut_slice(),
        sorted.as_mut_slice(),
        ends.as_mut_slice(),
        used.as_mut_slice(),
        levels.as_mut_slice(),
        seeds.as_mut_slice(),
        free.as_mut_slice(),
    ) {
        Ok(made) => {
            levels.truncate(made.levels);
            seeds.truncate(made.seeds);
            free.truncate(made.slots.saturating_sub(keys.len()));
            Ok(Ok(Built {
                levels,
                seeds,
                free,
            }))
        }
        Err(error) => Ok(Err(error)),
    }
}

/// The hash of what was built.
fn view(hash: &Built, keys: usize) -> BucketsView<'_> {
    let (levels, seeds) = (hash.levels.as_slice(), hash.seeds.as_slice());
    BucketsView::over(levels, seeds, hash.free.as_slice(), keys)
}

/// How many of the numbers below the count of the keys are some key's.
fn numbers_hit(alloc: Global, hash: &Built, keys: &[u64]) -> Result<usize, AllocError> {
    let mut hit = vec![in alloc; false; keys.len()]?;
    let hash = view(hash, keys.len());
    for key in keys {
        if let Answer::Found(position) = hash.get(*key) {
            if position < hit.len() {
                hit[position] = true;
            }
        }
    }
    Ok(hit.iter().filter(|is| **is).count())
}

#[test]
fn each_key_has_a_number_of_its_own(rt: HostRuntime) -> Result<(), Fail> {
    for count in [0, 1, 2, 3, 10, 100, 1000, 10000] {
        let keys = draws(rt.alloc(), count)?;
        match make(rt.alloc(), keys.as_slice())? {
            Ok(hash) => {
                let hit = numbers_hit(rt.alloc(), &hash, keys.as_slice())?;
                assert_eq!(rt; hit, count);
                assert!(rt; view(&hash, count).check());
                assert!(rt; view(&hash, count).keys() == count);
            }
            Err(error) => assert!(rt; false, "{error:?}"),
        }
    }
    Ok(())
}

#[test]
fn few_seeds_and_free_slots_are_taken(rt: HostRuntime) -> Result<(), Fail> {
    // A seed for each 4.75 keys of each level; about 7 of 100 keys go on to a next level.
    let keys = draws(rt.alloc(), 10000)?;
    match make(rt.alloc(), keys.as_slice())? {
        Ok(hash) => {
            assert!(rt; hash.levels.len() <= 6);
            assert!(rt; hash.seeds.len() <= 2400);
            assert!(rt; hash.free.len() <= 1000);
        }
        Err(error) => assert!(rt; false, "{error:?}"),
    }
    Ok(())
}

#[test]
fn equal_keys_are_named(rt: HostRuntime) -> Result<(), Fail> {
    for (first, second) in [(0, 1), (0, 99), (17, 42), (98, 99)] {
        let mut keys = draws(rt.alloc(), 100)?;
        if second < keys.len() && first < second {
            keys[second] = keys[first];
        }
        match make(rt.alloc(), keys.as_slice())? {
            Ok(_) => assert!(rt; false, "built"),
            Err(error) => assert!(rt; error == BuildError::Equal(first, second), "{error:?}"),
        }
    }
    Ok(())
}

/// How far a hash of up to 100 keys is built in room for a number of levels, seeds and free slots, where keys are left.
fn made_in(keys: &[u64], levels: usize, seeds: usize, free: usize) -> Option<Made> {
    let made = build(
        &keys[..keys.len().min(100)],
        [0u64; 100].as_mut_slice(),
        [0u64; 100].as_mut_slice(),
        [0u64; 64].as_mut_slice(),
        [0u64; 8].as_mut_slice(),
        &mut [NONE; 3].as_mut_slice()[..levels.min(3)],
        &mut [0u8; 64].as_mut_slice()[..seeds.min(64)],
        &mut [0u64; 64].as_mut_slice()[..free.min(64)],
    );
    match made {
        Err(BuildError::Left(made)) => Some(made),
        _ => None,
    }
}

#[test]
fn a_full_room_says_how_many_are_left(rt: HostRuntime) -> Result<(), Fail> {
    let keys = draws(rt.alloc(), 100)?;
    // room for levels, seeds and free slots, and how many levels have it
    for (most, seeds, free, levels) in [
        (0, 64, 64, 0),
        (3, 21, 64, 0),
        (3, 64, 0, 1),
        (1, 64, 64, 1),
        (3, 24, 64, 1),
    ] {
        let made = made_in(keys.as_slice(), most, seeds, free).ok_or("built")?;
        assert!(rt; made.levels == levels, "{made:?}");
        assert!(rt;
            (made.left == 100) == (levels == 0) && made.left != 0,
            "{made:?}"
        );
    }
    Ok(())
}

#[test]
fn parts_of_no_hash_are_wrong(rt: HostRuntime) -> Result<(), Fail> {
    let level = Level {
        buckets: 4,
        slots: 8,
        slice: 2,
    };
    let parts = [
        (NONE, 8, true),
        (
            Level {
                buckets: 9,
                ..level
            },
            8,
            true,
        ),
        (Level { slice: 0, ..level }, 8, true),
        (Level { slice: 9, ..level }, 8, true),
        (
            Level {
                slots: usize::MAX,
                ..level
            },
            8,
            true,
        ),
        (level, 8, false),
        (level, 2, false),
    ];
    for (one, keys, is_wrong) in parts {
        let levels = [one];
        let hash = BucketsView::over(
            &levels,
            &[1u8, 2, 3, 4, 5, 6, 7, 8],
            &[0u64, 1, 1, 1, 1, 1],
            keys,
        );
        assert!(rt; hash.check() != is_wrong, "{one:?}");
        assert!(rt; (hash.get(9) == Answer::Wrong) == is_wrong, "{one:?}");
    }
    Ok(())
}

#[test]
fn free_slots_are_read_as_they_stand(rt: HostRuntime) -> Result<(), Fail> {
    // One slot, and no key: its number is that of the list, if it is one.
    let levels = [Level {
        buckets: 1,
        slots: 2,
        slice: 1,
    }];
    let seeds = [1u8];
    for (free, number, is_hash) in [
        ([0u64, 0], Answer::Found(0), true),
        ([1, 0], Answer::Wrong, false),
        ([0, 7], Answer::Found(0), false),
    ] {
        let hash = BucketsView::over(&levels, &seeds, &free, 1);
        assert!(rt; hash.check() == is_hash);
        assert!(rt; hash.get(u64::MAX) == number);
        assert!(rt; hash.get(0) == Answer::Found(0));
        if hash.check() {
            assert!(rt; hash.number_of(0) == Some(0) && hash.number_of(u64::MAX) == Some(0));
        }
    }
    // no free slot for the second slot
    let hash = BucketsView::over(&levels, &seeds, &[], 1);
    assert!(rt; !hash.check());
    assert!(rt; hash.get(u64::MAX) == Answer::Wrong);
    // the seed is 0 in each level
    let hash = BucketsView::over(&levels, &[0u8], &[0u64], 1);
    assert!(rt; hash.check());
    assert!(rt; hash.get(9) == Answer::Absent);
    Ok(())
}

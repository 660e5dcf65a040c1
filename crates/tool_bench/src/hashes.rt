//! Rows of perfect hashes: bits a key, and the time of a key to build, of a query, and of one of many.
use crate::bench::{Batch, Bench, Label, sum};
use bitm::{ArrayWithRank101111, GetSize};
use perfect_hash::{Grouped, PerfectHash, Placing, Plain, Seeded, build_by};
use std::alloc::{AllocError, Global};

type Hash<P> = PerfectHash<Seeded, ArrayWithRank101111, P>;

/// Keys that one call looks up.
const AT_ONCE: usize = 4096;

/// The given number of keys of 64 bits, no two of them the same: the generator has each number once.
fn keys(alloc: Global, count: usize) -> Result<Vec<u64>, AllocError> {
    let mut key = 88_172_645_463_325_252u64;
    let mut keys = Vec::with_capacity(alloc, count)?;
    for _ in 0..count {
        key = key
            .wrapping_mul(6_364_136_223_846_793_005)
            .wrapping_add(1_442_695_040_888_963_407);
        keys.push(key)?;
    }
    Ok(keys)
}

/// Adds up the numbers of the keys; one call looks up `AT_ONCE` keys.
fn sum_of_many<P: Placing>(made: &Hash<P>, keys: &[u64]) -> usize {
    let mut numbers = [0usize; AT_ONCE];
    let mut sum = 0usize;
    for some in keys.chunks(AT_ONCE) {
        let asked = &mut numbers[..some.len().min(AT_ONCE)];
        if asked.len() == some.len() {
            made.get_many(some, asked);
        }
        for number in asked {
            sum = sum.wrapping_add(*number);
        }
    }
    sum
}

/// The keys to be looked up, one by one or many at once.
#[derive(Drop)]
struct LookUps<'a, P: Placing> {
    made: &'a Hash<P>,
    keys: &'a [u64],
    many: bool,
}

impl<'a, P: Placing> Batch for LookUps<'a, P> {
    #[inline(never)]
    fn run(&self) -> usize {
        if self.many {
            sum_of_many(self.made, self.keys)
        } else {
            sum!(self.keys, key => self.made.get(key))
        }
    }
}

/// Adds the rows of what was made: its bits, and the time of a query, and of one of many.
fn add_calls<'a, P: Placing + GetSize>(
    bench: &mut Bench<'a>,
    by: &'a str,
    made: &Hash<P>,
    keys: &[u64],
) {
    let bytes = made.size_bytes_dyn();
    bench.add_space(Label("hash_space_a_key", by), bytes, keys.len());
    for (name, many) in [("hash_get", false), ("hash_get_many", true)] {
        bench.least(Label(name, by), keys.len(), &LookUps { made, keys, many });
    }
}

/// Adds the rows of one form: what places the keys, and how many bits a level has for each hundred of them.
fn add_form<'a, P: Placing + GetSize>(
    bench: &mut Bench<'a>,
    by: &'a str,
    placing: P,
    keys: &[u64],
    percent: u16,
) -> Result<(), AllocError> {
    let begun = bench.used();
    match build_by(bench.alloc(), placing, Seeded { seed: 1 }, keys, percent) {
        Ok(made) => {
            bench.add_since(begun, Label("hash_build_a_key", by), keys.len());
            add_calls(bench, by, &made, keys);
            Ok(())
        }
        Err(_) => Err(AllocError),
    }
}

/// Adds the rows of these keys: with levels of as many bits as the keys that are left, of twice as many, and with
/// seeds.
fn add_forms(bench: &mut Bench<'_>, keys: &[u64]) -> Result<(), AllocError> {
    add_form(bench, "100 per cent", Plain, keys, 100)?;
    add_form(bench, "200 per cent", Plain, keys, 200)?;
    let seeds = Grouped::new(bench.alloc(), 64);
    add_form(bench, "64 seeds", seeds, keys, 100)
}

/// Adds the rows of the given number of keys.
pub(crate) fn add_rows(bench: &mut Bench<'_>, count: usize) -> Result<(), AllocError> {
    let kept = keys(bench.alloc(), count)?;
    add_forms(bench, kept.as_slice())
}

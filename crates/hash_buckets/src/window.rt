//! Buckets that wait for their seeds, of which the one whose turn it is comes first. Nothing rests on the order but how
//! many buckets find a seed.
ghost use Rattle.std.specs.Prelude.{◌≤◌};

use crate::grouping::begin_of;

/// This number of buckets waits.
pub(crate) const WINDOW: usize = 64;

/// How far a bucket waits for its size, in 1024ths of a bucket: one with more hashes, for which seeds are rarer, comes
/// before the buckets that precede it. Found by trials.
const COSTS: [u64; 11] = [
    236064, 236064, 108058, 73837, 56858, 43827, 32869, 24101, 16101, 8101, 101,
];

/// Buckets that wait, and when it is the turn of each.
#[derive(Drop)]
pub(crate) struct Window {
    buckets: [usize; 64],
    turns: [u64; 64],
    count: usize,
    ghost few: { count ≤ 64 },
}

impl Window {
    /// No bucket waits yet.
    pub(crate) fn new() -> Window {
        Window {
            buckets: [0; 64],
            turns: [0; 64],
            count: 0,
        }
    }

    /// Takes the bucket whose turn it is.
    fn take(&mut self) -> Option<usize> {
        if self.count == 0 {
            return None;
        }
        let mut best = 0;
        for i in 1..self.count {
            if self.turns[i] < self.turns[best] {
                best = i;
            }
        }
        let bucket = self.buckets[best];
        self.count -= 1;
        self.buckets[best] = self.buckets[self.count];
        self.turns[best] = self.turns[self.count];
        Some(bucket)
    }

    /// Has one more bucket wait where it is one, and takes one that waits where the window is full or no bucket is
    /// left.
    pub(crate) fn pass(&mut self, bucket: usize, ends: &[u64]) -> Option<usize> {
        let taken = if self.count == 64 || bucket >= ends.len() {
            self.take()
        } else {
            None
        };
        if bucket < ends.len() && self.count < 64 {
            let size = (ends[bucket] as usize)
                .wrapping_sub(begin_of(ends, bucket))
                .min(10);
            self.buckets[self.count] = bucket;
            self.turns[self.count] = (bucket as u64).wrapping_mul(1024).wrapping_add(COSTS[size]);
            self.count += 1;
        }
        taken
    }
}

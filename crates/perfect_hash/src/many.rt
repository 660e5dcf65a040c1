//! Many look-ups at once: they go from level to level side by side, so that each waits for memory while the others do.
ghost use Rattle.std.specs.Prelude.{◌≡◌, ◌≢◌, ◌+◌, ◌*◌, ◌%◌, ◌^◌, ◌-◌, ◌<◌, ◌≤◌, ℕ, length, slice_index};
ghost use Rattle.bit_lists.specs.Count.{ones_before};
ghost use Rattle.perfect_hash.specs.Levels.{fall_in, position_from, GoesOn};
ghost use Rattle.perfect_hash.specs.Many.{number_code, AreHashes, AreLevelsInside, AreLookedUp, AreNumbersOf};
ghost use Rattle.perfect_hash.specs.Many.{AreNumbersOfKeys, AreRanks, IsLookedUp};
ghost use Rattle.perfect_hash.specs.Parts.{number_at, number_from};
ghost use Rattle.bitm_tables.specs.Reads.{OnlyReads};

use crate::levels::{KeyHash, Placing};
use crate::querying::{ByIndex, Query, no_source};
use crate::table::PerfectHash;
use bitm::Access;
use bitm_select::search::selected::NO_ANSWER;
use bitm_tables::source::TableSource;
use bitm_tables::source::counts::ReadCounts;
use tuning::LOOK_UPS_SIDE_BY_SIDE;

/// The position of the 1 bit that a hash falls on at this level; `NO_ANSWER` where it falls on none.
#[inline(always)]
fn look<Q: Query, T: TableSource, P: Placing>(
    query: &Q,
    source: &mut T,
    placing: &P,
    sizes: &[usize],
    level: usize,
    begin: usize,
    hash: u64,
) -> usize
    requires sizes { AreLevelsInside sizes.now (Q.bits query.now (T.lists source.old)) }
    requires level { level < length sizes.now }
    requires goes_on { GoesOn (fall_in (P.fall placing.now) sizes.now hash)
        (Q.bits query.now (T.lists source.old)) sizes.now level begin }
    ensures looked { IsLookedUp (fall_in (P.fall placing.now) sizes.now hash)
        (Q.bits query.now (T.lists source.old)) sizes.now
        (level + 1) (begin + slice_index sizes.now level) result }
    ensures reads { OnlyReads T.lists T.reads source.old source.new 0 0 1 }
{
    let reads = &mut ReadCounts::new();
    let position = 64 * begin + placing.position(begin, hash, level as u32, sizes[level], reads);
    if query.is_one(source, position) {
        position
    } else {
        NO_ANSWER
    }
}

/// Looks at one level for the hashes that wait, the first `count` of the list. The hashes that go on come to its start,
/// without a branch that the processor would have to guess, and the answer is how many they are.
#[inline(always)]
fn look_at_level<Q: Query, T: TableSource, P: Placing>(
    query: &Q,
    source: &mut T,
    placing: &P,
    sizes: &[usize],
    level: usize,
    begin: usize,
    hashes: &[u64],
    positions: &mut [usize],
    waiting: &mut [usize],
    count: usize,
) -> usize
    requires sizes { AreLevelsInside sizes.now (Q.bits query.now (T.lists source.old)) }
    requires level { level < length sizes.now }
    requires same_length { length positions.old ≡ length hashes.now }
    requires before { AreLookedUp (fall_in (P.fall placing.now) sizes.now)
        (Q.bits query.now (T.lists source.old))
        sizes.now level begin hashes.now positions.old waiting.old count }
    ensures after { AreLookedUp (fall_in (P.fall placing.now) sizes.now)
        (Q.bits query.now (T.lists source.old))
        sizes.now (level + 1) (begin + slice_index sizes.now level) hashes.now positions.new waiting.new result }
    ensures fewer { result ≤ count }
    ensures reads { OnlyReads T.lists T.reads source.old source.new 0 0 count }
{
    let mut kept = 0;
    for i in 0..count {
        let k = waiting[i];
        let position = look(query, source, placing, sizes, level, begin, hashes[k]);
        positions[k] = position;
        waiting[kept] = k;
        if position == NO_ANSWER {
            kept += 1;
        }
    }
    kept
}

/// Makes each second position `NO_ANSWER`, from number `first` on.
#[inline(always)]
fn none_half(positions: &mut [usize], first: usize)
    ensures none { (j : ℕ) → first ≤ j → j % 2 ≡ first % 2 → j < length positions.old
        → slice_index positions.new j ≡ 2 ^ 64 - 1 }
    ensures kept { (j : ℕ) → slice_index positions.old j ≡ 2 ^ 64 - 1
        → slice_index positions.new j ≡ 2 ^ 64 - 1 }
{
    let mut at = first;
    while at < positions.len() {
        positions[at] = NO_ANSWER;
        at += 2;
    }
}

/// The position of each hash, or `NO_ANSWER`. What `waiting`, which is as long as the hashes at least, holds afterwards
/// means nothing.
#[inline(always)]
pub(crate) fn find_positions<Q: Query, T: TableSource, P: Placing>(
    query: &Q,
    source: &mut T,
    placing: &P,
    sizes: &[usize],
    hashes: &[u64],
    positions: &mut [usize],
    waiting: &mut [usize],
)
    requires sizes { AreLevelsInside sizes.now (Q.bits query.now (T.lists source.old)) }
    requires same_length { length positions.old ≡ length hashes.now }
    requires room { length hashes.now ≤ length waiting.old }
    ensures claimed { (k : ℕ) → k < length hashes.now → slice_index positions.new k
        ≡ number_code (position_from (fall_in (P.fall placing.now) sizes.now (slice_index hashes.now k))
        (Q.bits query.now (T.lists source.old)) 0 0 sizes.now) }
    ensures reads { OnlyReads T.lists T.reads source.old source.new 0 0
        (length hashes.now * length sizes.now) }
{
    // A loop over all positions would be compiled to a call of C's `memset`, and the archive for C calls nothing.
    none_half(&mut *positions, 0);
    none_half(&mut *positions, 1);
    for k in 0..hashes.len() {
        waiting[k] = k;
    }
    let mut count = hashes.len();
    let mut begin = 0;
    for level in 0..sizes.len() {
        if count == 0 {
            return;
        }
        count = look_at_level(
            query,
            source,
            placing,
            sizes,
            level,
            begin,
            hashes,
            &mut *positions,
            &mut *waiting,
            count,
        );
        begin += sizes[level];
    }
}

/// Replaces each position by how many 1 bits stand before it; `NO_ANSWER` stays.
#[inline(always)]
fn rank_positions<I: Access>(index: &I, positions: &mut [usize])
    requires { (k : ℕ) → k < length positions.old → slice_index positions.old k ≢ 2 ^ 64 - 1
        → slice_index positions.old k ≤ length (I.bits index.now) }
    ensures { AreRanks (I.bits index.now) positions.old positions.new }
{
    for k in 0..positions.len() {
        if positions[k] != NO_ANSWER {
            positions[k] = index.rank(positions[k]);
        }
    }
}

impl<H, I: Access, P: Placing> PerfectHash<H, I, P> {
    /// The numbers of no more hashes than go side by side.
    #[inline(always)]
    fn number_block(&self, hashes: &[u64], numbers: &mut [usize])
        requires same_length { length numbers.old ≡ length hashes.now }
        requires few { length hashes.now ≤ 256 }
        ensures { AreNumbersOf (number_from P.fall self.now) hashes.now numbers.new }
    {
        let query = ByIndex {
            index: self.index(),
        };
        let waiting = &mut [0; LOOK_UPS_SIDE_BY_SIDE];
        let (source, placing, sizes) = (&mut no_source(), self.placing(), self.sizes());
        find_positions(
            &query,
            source,
            placing,
            sizes,
            hashes,
            &mut *numbers,
            waiting,
        );
        rank_positions(self.index(), numbers);
    }

    /// The number of each hash, as `get` answers it for a key of that hash; they go to `numbers` in the order of the
    /// hashes, `NO_ANSWER` where there is none.
    ///
    /// # Conditions
    /// There are as many `numbers` as `hashes`.
    /// # Cost
    /// The cost of `get` for each; 256 go from level to level together.
    pub fn numbers_of(&self, hashes: &[u64], numbers: &mut [usize])
        requires same_length { length numbers.old ≡ length hashes.now }
        ensures { AreNumbersOf (number_from P.fall self.now) hashes.now numbers.new }
    {
        let mut from = 0;
        while from < hashes.len() {
            let to = from + (hashes.len() - from).min(LOOK_UPS_SIDE_BY_SIDE);
            self.number_block(&hashes[from..to], &mut numbers[from..to]);
            from = to;
        }
    }

    /// Writes the hash of each key.
    #[inline(always)]
    fn hash_each<K>(&self, keys: &[K], hashes: &mut [u64])
    where
        H: KeyHash<K>,
        requires same_length { length hashes.old ≡ length keys.now }
        ensures { AreHashes (H.hash self.now.hasher) keys.now hashes.new }
    {
        for k in 0..keys.len() {
            hashes[k] = self.hash(&keys[k]);
        }
    }

    /// The number of each key, as `get` answers it; they go to `numbers` in the order of the keys, `NO_ANSWER` for
    /// `None`.
    ///
    /// # Conditions
    /// There are as many `numbers` as `keys`.
    /// # Cost
    /// The cost of `numbers_of`, and of the hashes.
    pub fn get_many<K>(&self, keys: &[K], numbers: &mut [usize])
    where
        H: KeyHash<K>,
        requires same_length { length numbers.old ≡ length keys.now }
        ensures { AreNumbersOfKeys (number_at P.fall H.hash self.now) keys.now numbers.new }
    {
        let mut hashes = [0; LOOK_UPS_SIDE_BY_SIDE];
        let mut from = 0;
        while from < keys.len() {
            let to = from + (keys.len() - from).min(LOOK_UPS_SIDE_BY_SIDE);
            self.hash_each(&keys[from..to], &mut hashes[..to - from]);
            self.number_block(&hashes[..to - from], &mut numbers[from..to]);
            from = to;
        }
    }
}

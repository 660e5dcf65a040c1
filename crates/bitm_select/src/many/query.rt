//! The first half of a group of selections side by side: binary search for the entry of each, which starts near a guess
//! where there are neither few entries nor many.
ghost use Rattle.std.specs.Prelude.{◌≡◌, ◌+◌, ◌*◌, ◌^◌, ◌<◌, ◌≤◌, ℕ, IfSome, IsTrue, length};
ghost use Rattle.bit_lists.specs.Bits.{digit_count};
ghost use Rattle.bitm_select.specs.Many.{AreInside, AreSearches, IsInside, IsSearch};
ghost use Rattle.bitm_tables.specs.Reads.{ReadsAtMost};
ghost use Rattle.bitm_tables.specs.Tables.{HasSizes};

use crate::search::entries::sought_entry;
use crate::search::record::is_at_most;
use crate::search::selecting::part_of_rank;
use bitm_tables::entry::ones_to_entry;
use bitm_tables::levels::L2_ENTRIES_PER_L1_ENTRY;
use bitm_tables::source::TableSource;
use tuning::{FEWEST_ENTRIES_TO_GUESS, SELECTIONS_SIDE_BY_SIDE};

/// The most entries for which a guess is made; with more, a wrong guess and all halvings would read more entries than
/// the contract allows.
const MOST_TO_GUESS: usize = 1 << 18;

/// The logarithm of the number of entries that a search goes on with after a guess.
const NEAR: u32 = 5;

/// A query under way. Contracts say of it `IsSearch`.
#[derive(Clone, Copy, PartialEq, Eq, Debug)]
pub struct Query {
    /// The rank within the upper block, where the tables match the words.
    pub rest: usize,
    /// The first of the entries among which the search goes on.
    pub entry: usize,
}

/// What fills the array before queries begin. Its numbers differ: the compiler would fill an array of zeros by
/// `memset`, which the archive for C does without.
pub(crate) const NO_QUERY: Query = Query { rest: 0, entry: 1 };

/// The query of a rank over all entries of its upper block: of the last with at most `rank` bits of the kind before it,
/// where the tables match the words; of some upper block otherwise.
#[inline(always)]
fn begin<const BIT: u8, T: TableSource>(source: &mut T, rank: usize) -> Query
    requires sized { HasSizes (T.lists source.old) }
    requires some { 0 < length (T.lists source.old).upper }
    ensures search { IsSearch BIT (T.lists source.old) rank result 21 }
    ensures reads { ReadsAtMost (T.reads source.old) (T.reads source.new)
        (digit_count (length (T.lists source.old).upper) + 1) 0 0 }
    ensures same { T.lists source.new ≡ T.lists source.old }
{
    let (part, rest) = part_of_rank::<BIT, T>(source, rank);
    Query {
        rest,
        entry: part * L2_ENTRIES_PER_L1_ENTRY,
    }
}

/// Moves a query 2^`size` entries on, where at most `rest` bits of the kind come before that entry in the upper block;
/// else leaves it as it is.
///
/// A sum, without a branch on the count.
#[inline(always)]
fn step<const BIT: u8, T: TableSource>(source: &mut T, query: Query, size: u32) -> Query
    requires sized { HasSizes (T.lists source.old) }
    requires size { size < 21 }
    requires next { query.entry + 2 ^ size < length (T.lists source.old).lower }
    ensures search { (rank : ℕ) → IsSearch BIT (T.lists source.old) rank query (size + 1)
        → IsSearch BIT (T.lists source.old) rank result size }
    ensures near { result.entry ≤ query.entry + 2 ^ size }
    ensures reads { ReadsAtMost (T.reads source.old) (T.reads source.new) 0 1 0 }
    ensures same { T.lists source.new ≡ T.lists source.old }
{
    let Query { rest, entry } = query;
    let count = ones_to_entry(sought_entry::<BIT, T>(source, entry + (1 << size)));
    Query {
        rest,
        entry: entry + (is_at_most(count, rest) << size),
    }
}

/// Like `step`, and leaves the query as it is where there is no such entry.
#[inline(always)]
fn halve<const BIT: u8, T: TableSource>(source: &mut T, query: Query, size: u32) -> Query
    requires sized { HasSizes (T.lists source.old) }
    requires size { size < 21 }
    requires entry { query.entry < length (T.lists source.old).lower }
    ensures search { (rank : ℕ) → IsSearch BIT (T.lists source.old) rank query (size + 1)
        → IsSearch BIT (T.lists source.old) rank result size }
    ensures reads { ReadsAtMost (T.reads source.old) (T.reads source.new) 0 1 0 }
    ensures same { T.lists source.new ≡ T.lists source.old }
{
    let next = query.entry + (1 << size);
    if next >= source.lower_len() {
        return query;
    }
    step::<BIT, T>(source, query, size)
}

/// Begins the search of each rank.
#[inline(always)]
fn begin_each<const BIT: u8, T: TableSource>(source: &mut T, ranks: &[usize], queries: &mut [Query])
    requires sized { HasSizes (T.lists source.old) }
    requires some { 0 < length (T.lists source.old).upper }
    requires enough { length ranks.now ≤ length queries.old }
    ensures searches { AreSearches BIT (T.lists source.old) ranks.now queries.new 21 }
    ensures reads { ReadsAtMost (T.reads source.old) (T.reads source.new)
        (length ranks.now * (digit_count (length (T.lists source.old).upper) + 1)) 0 0 }
    ensures same { T.lists source.new ≡ T.lists source.old }
{
    for k in 0..ranks.len() {
        queries[k] = begin::<BIT, T>(source, ranks[k]);
    }
}

/// Halves the entries of each search: 2^`size` of them are left.
#[inline(always)]
fn halve_each<const BIT: u8, T: TableSource>(
    source: &mut T,
    ranks: &[usize],
    queries: &mut [Query],
    size: u32,
)
    requires sized { HasSizes (T.lists source.old) }
    requires size { size < 21 }
    requires searches { AreSearches BIT (T.lists source.old) ranks.now queries.old (size + 1) }
    ensures searches { AreSearches BIT (T.lists source.old) ranks.now queries.new size }
    ensures reads { ReadsAtMost (T.reads source.old) (T.reads source.new) 0 (length ranks.now) 0 }
    ensures same { T.lists source.new ≡ T.lists source.old }
{
    for k in 0..ranks.len() {
        queries[k] = halve::<BIT, T>(source, queries[k], size);
    }
}

/// Halves the entries of each search that is near its entry: 2^`size` of them are left.
#[inline(always)]
fn step_each<const BIT: u8, T: TableSource>(
    source: &mut T,
    ranks: &[usize],
    queries: &mut [Query],
    size: u32,
)
    requires sized { HasSizes (T.lists source.old) }
    requires size { size < 21 }
    requires near { AreInside BIT (T.lists source.old) ranks.now queries.old (size + 1) }
    ensures near { AreInside BIT (T.lists source.old) ranks.now queries.new size }
    ensures reads { ReadsAtMost (T.reads source.old) (T.reads source.new) 0 (length ranks.now) 0 }
    ensures same { T.lists source.new ≡ T.lists source.old }
{
    for k in 0..ranks.len() {
        queries[k] = step::<BIT, T>(source, queries[k], size);
    }
}

/// The number of halvings that leave one entry of an upper block, of the given number of entries in all.
#[inline(always)]
fn halvings(entries: usize) -> u32
    ensures most { result ≤ 21 }
    ensures enough { result < 21 → entries ≤ 2 ^ result }
    ensures least { entries ≤ 2 ^ 18 → result ≤ 18 }
{
    let mut size = 0;
    while size < 21 && 1 << size < entries {
        size += 1;
    }
    size
}

/// Entries per bit of the kind, times 2^32, where the bits lie evenly in one upper block; any number would do.
#[inline(always)]
fn entries_per_item<const BIT: u8, T: TableSource>(source: &mut T) -> usize
    requires some { 0 < length (T.lists source.old).lower }
    requires few { length (T.lists source.old).lower ≤ 2 ^ 18 }
    ensures reads { ReadsAtMost (T.reads source.old) (T.reads source.new) 0 1 0 }
    ensures same { T.lists source.new ≡ T.lists source.old }
{
    let last = source.lower_len() - 1;
    let items = ones_to_entry(sought_entry::<BIT, T>(source, last));
    (last << 32) / items.max(1)
}

/// Moves a query near its entry by a guess, which two reads test; `None` where the entry is not among the 2^`NEAR`
/// entries from the guess on.
#[inline(always)]
fn guess<const BIT: u8, T: TableSource>(
    source: &mut T,
    query: Query,
    entries_per_item: usize,
) -> Option<Query>
    requires one_part { length (T.lists source.old).upper ≡ 1 }
    requires many { 2 ^ 9 ≤ length (T.lists source.old).lower }
    requires few { length (T.lists source.old).lower ≤ 2 ^ 18 }
    ensures search { IfSome result (λ near. (rank : ℕ)
        → IsSearch BIT (T.lists source.old) rank query 21
        → IsInside BIT (T.lists source.old) rank near 5) }
    ensures reads { ReadsAtMost (T.reads source.old) (T.reads source.new) 0 2 0 }
    ensures same { T.lists source.new ≡ T.lists source.old }
{
    let rest = query.rest;
    let about = rest.wrapping_mul(entries_per_item) >> 32;
    let most = source.lower_len() - (1 << NEAR) - 1;
    let entry = about.saturating_sub(1 << (NEAR - 1)).min(most);
    let below = ones_to_entry(sought_entry::<BIT, T>(source, entry));
    let above = ones_to_entry(sought_entry::<BIT, T>(source, entry + (1 << NEAR)));
    if below <= rest && rest < above {
        Some(Query { rest, entry })
    } else {
        None
    }
}

/// Moves each query near its entry by a guess, and returns whether every guess was right. Where one was not, `queries`
/// may hold anything.
#[inline(always)]
fn guess_each<const BIT: u8, T: TableSource>(
    source: &mut T,
    ranks: &[usize],
    begun: &[Query],
    queries: &mut [Query],
) -> bool
    requires one_part { length (T.lists source.old).upper ≡ 1 }
    requires many { 2 ^ 9 ≤ length (T.lists source.old).lower }
    requires few { length (T.lists source.old).lower ≤ 2 ^ 18 }
    requires searches { AreSearches BIT (T.lists source.old) ranks.now begun.now 21 }
    requires enough { length ranks.now ≤ length queries.old }
    ensures near { IsTrue result
        → AreInside BIT (T.lists source.old) ranks.now queries.new 5 }
    ensures reads { ReadsAtMost (T.reads source.old) (T.reads source.new)
        0 (2 * length ranks.now + 1) 0 }
    ensures same { T.lists source.new ≡ T.lists source.old }
{
    let each = entries_per_item::<BIT, T>(source);
    for k in 0..ranks.len() {
        match guess::<BIT, T>(source, begun[k], each) {
            Some(query) => queries[k] = query,
            None => return false,
        }
    }
    true
}

/// Whether guesses are made: in one upper block with neither few entries nor many.
#[inline(always)]
fn guesses<T: TableSource>(source: &T) -> bool
    ensures { IsTrue result → (length (T.lists source.now).upper ≡ 1)
        × (2 ^ 9 ≤ length (T.lists source.now).lower)
        × (length (T.lists source.now).lower ≤ 2 ^ 18) }
{
    let entries = source.lower_len();
    source.upper_len() == 1 && entries >= FEWEST_ENTRIES_TO_GUESS && entries <= MOST_TO_GUESS
}

/// Finds the entries of queries that are near them. All entries that this reads exist, so it does without that test.
#[inline(always)]
fn close_each<const BIT: u8, T: TableSource>(source: &mut T, ranks: &[usize], queries: &mut [Query])
    requires sized { HasSizes (T.lists source.old) }
    requires near { AreInside BIT (T.lists source.old) ranks.now queries.old 5 }
    ensures searches { AreSearches BIT (T.lists source.old) ranks.now queries.new 0 }
    ensures reads { ReadsAtMost (T.reads source.old) (T.reads source.new)
        0 (5 * length ranks.now) 0 }
    ensures same { T.lists source.new ≡ T.lists source.old }
{
    let mut size = NEAR;
    while size > 0 {
        size -= 1;
        step_each::<BIT, T>(source, ranks, queries, size);
    }
}

/// Finds the entries of new queries by all halvings.
#[inline(always)]
fn halve_all<const BIT: u8, T: TableSource>(source: &mut T, ranks: &[usize], queries: &mut [Query])
    requires sized { HasSizes (T.lists source.old) }
    requires searches { AreSearches BIT (T.lists source.old) ranks.now queries.old 21 }
    ensures searches { AreSearches BIT (T.lists source.old) ranks.now queries.new 0 }
    ensures reads { ReadsAtMost (T.reads source.old) (T.reads source.new)
        0 (21 * length ranks.now) 0 }
    ensures reads_few { length (T.lists source.old).lower ≤ 2 ^ 18
        → ReadsAtMost (T.reads source.old) (T.reads source.new) 0 (18 * length ranks.now) 0 }
    ensures same { T.lists source.new ≡ T.lists source.old }
{
    let mut size = halvings(source.lower_len());
    while size > 0 {
        size -= 1;
        halve_each::<BIT, T>(source, ranks, queries, size);
    }
}

/// Copies the queries number by number: the compiler would copy whole queries by `memcpy`, which the archive for C does
/// without.
#[inline(always)]
fn copy_each(begun: &[Query], queries: &mut [Query])
    requires { length begun.now ≡ length queries.old }
    ensures { queries.new ≡ begun.now }
{
    for k in 0..begun.len() {
        let Query { rest, entry } = begun[k];
        queries[k] = Query { rest, entry };
    }
}

/// Finds the entry of each rank by sixteen searches side by side: near a guess where there are neither few entries nor
/// many and every guess is right, and by binary search over all entries otherwise.
///
/// # Conditions
/// There is at least one word and there are fewer than 2^58, and the tables have the right lengths; they may hold
/// anything. There is at least one rank and there are at most sixteen, and `queries` has length 16.
/// # Cost
/// With u upper entries, each rank reads at most one more of them than u has binary digits, and 21 lower entries,
/// whatever the tables hold.
#[inline(always)]
pub fn find_by_halves<const BIT: u8, T: TableSource>(
    source: &mut T,
    ranks: &[usize],
    queries: &mut [Query],
)
    requires sized { HasSizes (T.lists source.old) }
    requires part { 0 < length (T.lists source.old).upper }
    requires some { 0 < length ranks.now }
    requires few { length ranks.now ≤ 16 }
    requires block { length queries.old ≡ 16 }
    ensures searches { AreSearches BIT (T.lists source.old) ranks.now queries.new 0 }
    ensures reads { ReadsAtMost (T.reads source.old) (T.reads source.new)
        (length ranks.now * (digit_count (length (T.lists source.old).upper) + 1))
        (21 * length ranks.now) 0 }
    ensures same { T.lists source.new ≡ T.lists source.old }
{
    let mut begun = [NO_QUERY; SELECTIONS_SIDE_BY_SIDE];
    begin_each::<BIT, T>(source, ranks, &mut begun);
    if guesses(source) && guess_each::<BIT, T>(source, ranks, &begun, queries) {
        close_each::<BIT, T>(source, ranks, queries);
        return;
    }
    copy_each(&begun, queries);
    halve_all::<BIT, T>(source, ranks, queries);
}

//! Many queries of an index at once, of few words and of enough words for the searches to start from a guess. By hand:
//! in words with their lowest bit alone set, the 1 bit of rank r is at 64 r and the 0 bit of rank r at r + r / 63 + 1,
//! and there are p / 64, rounded up, 1 bits before position p; in empty words before full words, the 1 bit of rank r is
//! r after the end of the empty words, and the 0 bit of rank r is at r. Full words at the end mislead a guess.
use crate::calls::walk::{TablesView, borrowed};
use bitm::{BinaryRankSearch, BitVec, Select0ForRank101111, SelectForRank101111};
use example_callers::many::{try_rank_many, try_select_many, try_select0_many};
use std::alloc::{AllocError, Global};
use std::boxed::BoxedSlice;
use std::convert::AsSlice;

/// The three calls.
#[derive(Clone, Copy)]
enum Call {
    Rank,
    Select,
    Select0,
}

/// Words: a number of empty words before a number of full words or, with no empty words, words with their lowest bit
/// set.
#[derive(Clone, Copy)]
struct Content {
    empty: usize,
    rest: usize,
}

/// Clears the given number of first words.
fn clear_first(words: &mut [u64], count: usize) {
    for k in 0..count.min(words.len()) {
        words[k] = 0;
    }
}

impl Content {
    /// Its words.
    fn words(self, alloc: Global) -> Result<BoxedSlice<u64, Global>, AllocError> {
        let word = if self.empty == 0 { 1 } else { u64::MAX };
        let len = self.empty.wrapping_add(self.rest);
        let mut words = BoxedSlice::with_64bit_segments(alloc, word, len)?;
        clear_first(words.as_mut_slice(), self.empty);
        Ok(words)
    }

    /// What a call of it has an answer below.
    fn limit(self, call: Call) -> usize {
        let lowest = self.empty == 0;
        let (ones, zeros) = if lowest { (1, 63) } else { (64, 0) };
        let zeros = 64usize
            .wrapping_mul(self.empty)
            .wrapping_add(self.rest.wrapping_mul(zeros));
        let ones = self.rest.wrapping_mul(ones);
        match call {
            Call::Rank => ones.wrapping_add(zeros).wrapping_add(1),
            Call::Select => ones,
            Call::Select0 => zeros,
        }
    }

    /// The answer by hand.
    fn expected(self, call: Call, asked: usize) -> usize {
        let before = self.empty.wrapping_mul(64);
        match (call, self.empty) {
            (Call::Rank, 0) => asked.div_ceil(64),
            (Call::Select, 0) => asked.wrapping_mul(64),
            (Call::Select0, 0) => asked.wrapping_add(asked / 63).wrapping_add(1),
            (Call::Rank, _) => asked.saturating_sub(before),
            (Call::Select, _) => asked.wrapping_add(before),
            (Call::Select0, _) => asked,
        }
    }
}

/// Makes one of the calls; returns whether each query has an answer.
fn ask<S: SelectForRank101111, S0: Select0ForRank101111>(
    index: &TablesView<'_, S, S0>,
    call: Call,
    queries: &[usize],
    answers: &mut [usize],
) -> bool {
    if queries.len() != answers.len() {
        return false;
    }
    match call {
        Call::Rank => try_rank_many(index, queries, answers),
        Call::Select => try_select_many(index, queries, answers),
        Call::Select0 => try_select0_many(index, queries, answers),
    }
}

/// Writes queries below the limit, far apart, and one at the limit.
fn write_queries(queries: &mut [usize], limit: usize) {
    for k in 0..queries.len() {
        let below = k.wrapping_mul(1_000_003) % limit.max(1);
        queries[k] = limit.wrapping_sub(1).wrapping_sub(below);
    }
    if let Some(last) = queries.last_mut() {
        *last = limit;
    }
}

/// Whether queries are answered rightly, into as many entries.
fn are_answered<S: SelectForRank101111, S0: Select0ForRank101111>(
    index: &TablesView<'_, S, S0>,
    content: Content,
    call: Call,
    queries: &[usize],
    answers: &mut [usize],
) -> bool {
    let mut agrees = ask(index, call, queries, &mut *answers);
    for (query, answer) in queries.iter().zip(answers.iter()) {
        agrees &= *answer == content.expected(call, *query);
    }
    agrees
}

/// Whether these queries but the last are answered rightly, and whether all are refused together, into as many entries.
fn all_agree<S: SelectForRank101111, S0: Select0ForRank101111>(
    index: &TablesView<'_, S, S0>,
    content: Content,
    call: Call,
    queries: &[usize],
    answers: &mut [usize],
) -> bool {
    let below = queries.len().saturating_sub(1);
    if below >= answers.len() {
        return false;
    }
    let agrees = are_answered(
        index,
        content,
        call,
        &queries[..below],
        &mut answers[..below],
    );
    if let Some(last) = answers.last_mut() {
        *last = 7;
    }
    let is_refused = !ask(index, call, queries, &mut *answers);
    agrees && is_refused && answers.last().copied() == Some(7)
}

/// Whether the given number of queries below the limit, far apart and at most 1000, are answered rightly, and whether
/// the same queries and one at the limit are refused together.
fn agrees<S: SelectForRank101111, S0: Select0ForRank101111>(
    index: &TablesView<'_, S, S0>,
    content: Content,
    call: Call,
    count: usize,
) -> bool {
    let (mut queries, mut answers) = ([0; 1001], [usize::MAX; 1001]);
    if count > 1000 {
        return false;
    }
    let queries = &mut queries[..count + 1];
    write_queries(&mut *queries, content.limit(call));
    all_agree(index, content, call, queries, &mut answers[..count + 1])
}

/// Whether each of the calls agrees, for no queries up to a thousand.
fn calls_agree<S: SelectForRank101111, S0: Select0ForRank101111>(
    index: &TablesView<'_, S, S0>,
    content: Content,
) -> bool {
    let mut all = true;
    for count in [0, 1, 16, 17, 33, 1000] {
        all &= agrees(index, content, Call::Rank, count);
        all &= agrees(index, content, Call::Select, count);
        all &= agrees(index, content, Call::Select0, count);
    }
    all
}

/// The same over an index that is built over these words.
fn words_agree<S: SelectForRank101111, S0: Select0ForRank101111>(
    alloc: Global,
    words: &[u64],
    content: Content,
) -> bool {
    match borrowed::<S, S0>(alloc, words) {
        Ok((index, _)) => calls_agree(&index, content),
        Err(_) => false,
    }
}

/// The same with the words made for it.
fn content_agrees<S: SelectForRank101111, S0: Select0ForRank101111>(
    alloc: Global,
    content: Content,
) -> bool {
    match content.words(alloc) {
        Ok(words) => words_agree::<S, S0>(alloc, words.as_slice(), content),
        Err(_) => false,
    }
}

/// Numbers of empty words, and of the words after them.
const CONTENTS: [(usize, usize); 5] = [
    (0, 3),
    (0, 140_000),
    (2, 1),
    (20_000, 500),
    (139_000, 1_000),
];

#[test]
fn many_queries_are_answered(rt: HostRuntime) {
    let mut agrees = true;
    for (empty, rest) in CONTENTS {
        let content = Content { empty, rest };
        agrees &= content_agrees::<BinaryRankSearch, BinaryRankSearch>(rt.alloc(), content);
    }
    assert!(rt; agrees);
}

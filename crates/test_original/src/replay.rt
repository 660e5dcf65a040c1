//! Replays the lines in order, each by its kind.
use crate::bytes::Change;
use crate::content::State;
use crate::fault::Fault;
use crate::found::Found;
use crate::reads::Read;
use crate::report::Report;
use crate::text::Base;
use crate::{bytes, ranks, reads, samples, selection, tables, text, word, writes};
use std::alloc::{AllocError, Global};

/// What all lines of a text show.
pub fn replay<'a>(alloc: Global, text: &'a str) -> Result<Report<'a>, AllocError> {
    let mut report = Report::new(alloc);
    let mut state = State::new(alloc);
    for (index, line) in text.lines().enumerate() {
        if line.is_empty() || line.starts_with('#') {
            continue;
        }
        report.add(found_in(alloc, &mut state, index.saturating_add(1), line))?;
    }
    Ok(report)
}

/// What a line shows.
fn found_in<'a>(alloc: Global, state: &mut State<'a>, number: usize, line: &'a str) -> Found<'a> {
    let (kind, rest) = text::first_word(line);
    let mut found = Found::new(alloc, kind, number);
    if let Err(fault) = replay_line(alloc, state, kind, rest, &mut found) {
        found.fails(fault);
    }
    found
}

/// Replays what follows the kind of a line: here the kinds of an index over words.
fn replay_line<'a>(
    alloc: Global,
    state: &mut State<'a>,
    kind: &str,
    line: &'a str,
    found: &mut Found<'a>,
) -> Result<(), Fault> {
    match kind {
        "ones" => ranks::ones(alloc, state, line, found),
        "simple" => ranks::simple(alloc, state, line, found),
        "rank" => ranks::rank(alloc, state, line, true, found),
        "rank0" => ranks::rank(alloc, state, line, false, found),
        "l1" => tables::l1(alloc, state, line, found),
        "l2" => tables::l2(alloc, state, line, found),
        "l2at" => tables::l2at(alloc, state, line, found),
        "select" => selection::select(alloc, state, line, true, found),
        "select0" => selection::select(alloc, state, line, false, found),
        "samples" => samples::samples(alloc, state, line, false, found),
        "samplesat" => samples::samples(alloc, state, line, true, found),
        _ => replay_content(alloc, state, kind, line, found),
    }
}

/// Replays what follows the kind of a line: here the other kinds that set or name words.
fn replay_content<'a>(
    alloc: Global,
    state: &mut State<'a>,
    kind: &str,
    line: &'a str,
    found: &mut Found<'a>,
) -> Result<(), Fault> {
    match kind {
        "content" => state.set_content(alloc, line, found),
        "bits" => reads::compare(state, line, Read::Bits, Base::Hexadecimal, found),
        "raw" => reads::compare(state, line, Read::Raw, Base::Hexadecimal, found),
        "find" => reads::compare(state, line, Read::First, Base::Decimal, found),
        "rfind" => reads::compare(state, line, Read::Last, Base::Decimal, found),
        "trail" => reads::trail(state, line, found),
        "set" => writes::compare(alloc, state, line, writes::Change::Set, found),
        "xor" => writes::compare(alloc, state, line, writes::Change::Xor, found),
        "swap" => writes::compare(alloc, state, line, writes::Change::Swap, found),
        _ => replay_apart(alloc, state, kind, line, found),
    }
}

/// Replays what follows the kind of a line: here the kinds that name no words.
fn replay_apart<'a>(
    alloc: Global,
    state: &mut State<'a>,
    kind: &str,
    line: &'a str,
    found: &mut Found<'a>,
) -> Result<(), Fault> {
    match kind {
        "init" => writes::init(alloc, line, found),
        "sel64" => word::sel64(alloc, line, found),
        "ocs" => samples::ocs(alloc, line, found),
        "ceil" => word::ceil(line, found),
        "store" => word::store(line, found),
        "bytes" => state.set_bytes(alloc, line),
        "get57" => bytes::get(state, line, true, found),
        "get25" => bytes::get(state, line, false, found),
        "init57" => bytes::compare(alloc, state, line, Change::Init57, found),
        "init25" => bytes::compare(alloc, state, line, Change::Init25, found),
        "set57" => bytes::compare(alloc, state, line, Change::Set57, found),
        "set25" => bytes::compare(alloc, state, line, Change::Set25, found),
        _ => Err(Fault::UnknownKind),
    }
}

//! The commands, and which line is which.
ghost use Rattle.std.specs.Prelude.{◌≡◌, ◌≤◌, length, option_map};
ghost use Rattle.std.specs.Prelude.{IfOk, OnErr, IfSome, IsSome, is_some};
ghost use Rattle.std.specs.List.{filter_map, list_all};
ghost use Rattle.program_base.specs.Text.{hexadecimal_of, parts_between_spaces, parts_left};
ghost use Rattle.program_base.specs.Request.{kind_by_name, range_request, request, request_of, written_words};
ghost use Rattle.program_base.specs.Request.{AsksForWords, IsWithinLimits};

use crate::text::digits::{decimal, hexadecimal};
use crate::text::{first_part, only_part};
use std::alloc::{AllocError, Global};

/// The most words that a line may give.
pub(crate) const MAX_WORDS: usize = 65536;

/// The kinds of index.
#[derive(Clone, Copy, Debug, PartialEq, Eq)]
pub(crate) enum Kind {
    Simple,
    Binary,
    Sampled,
}

/// What a line requests.
#[derive(Drop)]
pub(crate) enum Command {
    Words(Vec<u64>),
    Set(u64),
    Clear(u64),
    Build(Kind),
    Rank(u64),
    /// A range: its first position and its width.
    Bits(u64, u8),
    Rank0(u64),
    Select(u64),
    Select0(u64),
}

/// The command of a line, or `None` where it is none. It finds no memory only for the words of
/// a vector.
pub(crate) fn parse(alloc: Global, line: &[u8]) -> Result<Option<Command>, AllocError>
    ensures parsed { IfOk result (λ command. option_map request command ≡ request_of line.now) }
    ensures few { IfOk result (λ command. IfSome command (λ c. IsWithinLimits (request c))) }
    ensures refused { OnErr result (AsksForWords (request_of line.now)) }
{
    let (name, rest) = first_part(line, b' ');
    if name == b"words".as_slice() {
        Ok(words(alloc, rest)?.map(Command::Words))
    } else if name == b"set".as_slice() {
        Ok(only_part(rest).and_then(decimal).map(Command::Set))
    } else if name == b"clear".as_slice() {
        Ok(only_part(rest).and_then(decimal).map(Command::Clear))
    } else if name == b"build".as_slice() {
        Ok(only_part(rest).and_then(kind_named).map(Command::Build))
    } else if name == b"rank".as_slice() {
        Ok(only_part(rest).and_then(decimal).map(Command::Rank))
    } else if name == b"bits".as_slice() {
        Ok(range(rest))
    } else if name == b"rank0".as_slice() {
        Ok(only_part(rest).and_then(decimal).map(Command::Rank0))
    } else if name == b"select".as_slice() {
        Ok(only_part(rest).and_then(decimal).map(Command::Select))
    } else if name == b"select0".as_slice() {
        Ok(only_part(rest).and_then(decimal).map(Command::Select0))
    } else {
        Ok(None)
    }
}

/// The bits of the range that just two parts write, of a width up to 63.
fn range(rest: Option<&[u8]>) -> Option<Command>
    ensures read { option_map request result ≡ range_request (parts_left rest.entry) }
    ensures few { IfSome result (λ command. IsWithinLimits (request command)) }
{
    let (first, rest) = first_part(rest?, b' ');
    let begin = decimal(first)?;
    let len = decimal(only_part(rest)?)?;
    if len <= 63 {
        Some(Command::Bits(begin, len as u8))
    } else {
        None
    }
}

/// The kind of index that has this name.
fn kind_named(name: &[u8]) -> Option<Kind>
    ensures { result ≡ kind_by_name name.now }
{
    if name == b"simple".as_slice() {
        Some(Kind::Simple)
    } else if name == b"binary".as_slice() {
        Some(Kind::Binary)
    } else if name == b"sampled".as_slice() {
        Some(Kind::Sampled)
    } else {
        None
    }
}

/// The words that the parts write, where each part is one and there are at most `MAX_WORDS`.
#[tactic(auto, using(crate::proofs::lemmas::SessionLineLemmas::length_filter_map))]
fn words(alloc: Global, rest: Option<&[u8]>) -> Result<Option<Vec<u64>>, AllocError>
    ensures read { IfOk result (λ words. option_map (λ v. v.items) words
        ≡ written_words (parts_left rest.entry)) }
    ensures few { IfOk result (λ words. IfSome words (λ v. length v.items ≤ 65536)) }
    ensures refused { OnErr result (IsSome (written_words (parts_left rest.entry))) }
{
    let Some(text) = rest else {
        return Ok(Some(Vec::new(alloc)));
    };
    let count = count_parts(text);
    if count > MAX_WORDS || !are_words(text) {
        return Ok(None);
    }
    Ok(Some(collect_words(alloc, text, count)?))
}

fn count_parts(text: &[u8]) -> usize
    ensures { result ≡ length (parts_between_spaces text.now) }
{
    text.split(|byte| *byte == b' ').count()
}

fn are_words(text: &[u8]) -> bool
    ensures { result ≡ list_all (λ part. is_some (hexadecimal_of part)) (parts_between_spaces text.now) }
{
    let mut parts = text.split(|byte| *byte == b' ');
    parts.all(|part| hexadecimal(part).is_some())
}

/// The words that the parts write, `count` of them, in one allocation of just their size.
fn collect_words(alloc: Global, text: &[u8], count: usize) -> Result<Vec<u64>, AllocError>
    ensures { IfOk result (λ words. words.items ≡ filter_map hexadecimal_of (parts_between_spaces text.now)) }
{
    let mut words = Vec::with_capacity(alloc, count)?;
    let parts = text.split(|byte| *byte == b' ');
    words.extend(parts.filter_map(hexadecimal))?;
    Ok(words)
}

//! Files of version 2 of the format, which releases before 0.3.0 wrote: bits or a sequence after a header.
ghost use Rattle.std.specs.Prelude.{◌≡◌, ◌*◌, ◌≤◌, ◌↔◌, IfSome, IsTrue, SomeIff, length};
ghost use Rattle.bitm_abi.specs.Stored.{end_of_span, LiesWithin};
ghost use Rattle.bitm_tables.specs.Tables.{HasSizes, HasTables};
ghost use Rattle.elias_fano.specs.SequenceParts.{AreParts};
ghost use Rattle.program_files.specs.Old.{old_bits_in, old_head_in, old_kind_of, old_sequence_in, part_of_file};
ghost use Rattle.program_files.specs.Old.{sequence_at, tables_at};
ghost use Rattle.program_files.specs.Old.{HasSequence, IsOld, IsOldBits, IsOldSequence};

use crate::blocks::kind::Kind;
use bitm_abi::{Span, Stored, header_of};
use bitm_view::bits::IndexView;
use block_tables::as_entries;
use sequence_block::SequenceView;
use tables_view::TablesView;

/// What the header of a file of version 2 says of its items.
#[derive(Clone, Copy)]
pub struct OldHead {
    /// Bits or a sequence.
    pub kind: Kind,
    /// How many bits or numbers there are.
    pub len: u64,
    /// How many low bits each number has, 0 for bits.
    pub width: u64,
}

/// The words of a part of a file.
fn part(file: &[u64], span: Span) -> &[u64]
    requires { end_of_span span 8 ≤ 8 * length file.now }
    ensures { result.now ≡ part_of_file file.now span }
{
    let begin = (span.at / 8) as usize;
    &file[begin..begin + span.len as usize]
}

/// The words of a file with their tables, which may hold anything.
#[tactic(auto, using(crate::proofs::lemmas::OldLemmas::words_inside, crate::proofs::lemmas::OldLemmas::upper_inside, crate::proofs::lemmas::OldLemmas::lower_inside))]
fn tables_of<'a>(file: &'a [u64], header: &Stored) -> Option<TablesView<'a>>
    requires { LiesWithin header.now (8 * length file.now) }
    ensures { SomeIff result (HasSizes (tables_at file.now header.now)) (tables_at file.now header.now) }
{
    let (words, upper) = (part(file, header.words), part(file, header.upper));
    TablesView::over(words, as_entries(upper), part(file, header.lower))
}

/// The bits in a file, if it has these with the tables of their words.
pub(crate) fn open_old_bits(file: &[u64]) -> Option<IndexView<'_>>
    ensures opened { SomeIff result (IsOldBits file.now) (old_bits_in file.now) }
    ensures holds { IfSome result (λ view. HasTables view.lists) }
{
    let header = header_of(file)?;
    if header.kind != 1 {
        return None;
    }
    let tables = tables_of(file, &header)?;
    if !tables.check() {
        return None;
    }
    IndexView::over(tables, header.len as usize)
}

/// The sequence of a file, whose parts may hold anything.
#[tactic(auto, using(crate::proofs::lemmas::OldLemmas::low_inside))]
fn sequence_at<'a>(file: &'a [u64], header: &Stored) -> Option<SequenceView<'a>>
    requires { LiesWithin header.now (8 * length file.now) }
    ensures { SomeIff result (HasSequence file.now header.now) (sequence_at file.now header.now) }
{
    if header.width > 63 {
        return None;
    }
    let low = part(file, header.low);
    let tables = tables_of(file, header)?;
    SequenceView::over(header.len as usize, header.width as u8, low, tables)
}

/// The sequence in a file, if it has the parts of one.
pub(crate) fn open_old_sequence(file: &[u64]) -> Option<SequenceView<'_>>
    ensures opened { SomeIff result (IsOldSequence file.now) (old_sequence_in file.now) }
    ensures holds { IfSome result AreParts }
{
    let header = header_of(file)?;
    if header.kind != 2 {
        return None;
    }
    let sequence = sequence_at(file, &header)?;
    if sequence.check() {
        Some(sequence)
    } else {
        None
    }
}

/// Whether a file has bits with the tables of their words, or the parts of a sequence, so that each answer is what
/// counting gives. Its samples are not looked at: they change no answer.
///
/// # Cost
/// Three passes over the file (evident from the code).
///
/// ```
/// is_old(file.as_slice());   // true of a file that an earlier release wrote
/// ```
pub fn is_old(file: &[u64]) -> bool
    ensures { IsTrue result ↔ IsOld file.now }
{
    match open_old_bits(file) {
        Some(_) => true,
        None => open_old_sequence(file).is_some(),
    }
}

/// The kind of this number in a header: bits, or else a sequence.
fn kind_of(number: u64) -> Kind
    ensures { result ≡ old_kind_of number }
{
    if number == 1 {
        Kind::Bits
    } else {
        Kind::Sequence
    }
}

/// What the header of such a file says; `None` exactly where it is none (`is_old`).
///
/// # Cost
/// The cost of `is_old`.
///
/// ```
/// old_head(file.as_slice());   // Some(head): head.len is how many bits or numbers there are
/// ```
#[tactic(auto, using(crate::proofs::lemmas::OldLemmas::is_headed))]
pub fn old_head(file: &[u64]) -> Option<OldHead>
    ensures { SomeIff result (IsOld file.now) (old_head_in file.now) }
{
    if !is_old(file) {
        return None;
    }
    let header = header_of(file)?;
    Some(OldHead {
        kind: kind_of(header.kind),
        len: header.len,
        width: header.width,
    })
}

//! The answers to the lines of a text.
ghost use Rattle.std.specs.Prelude.{◌≡◌, ◌⊎◌, Err, IfErr, IfOk, IfSome, IsErrOf, IsNone, IsSomeAnd};
ghost use Rattle.program_base.specs.Text.{lines_of};
ghost use Rattle.program_files.specs.Failure.{IsAnswerFailure, IsRefusal};
ghost use Rattle.program_files.specs.Format.{format_in};
ghost use Rattle.program_files.specs.Old.{IsOld, IsOldFile, WroteOldBits, WroteOldSequence};
ghost use Rattle.program_files.specs.Old.{RepliesOfFile, RepliesOfOld};
ghost use Rattle.program_files.specs.Query.{Replies, WroteAnswers, WroteReplies, WroteReply};
ghost use Rattle.program_files.specs.Sound.{AreSoundNumbersOf, IsFileOfSoundNumbers};

use crate::blocks::bits::open_bits;
use crate::blocks::bytes::words_of_bytes;
use crate::blocks::failure::Failure;
use crate::blocks::format::{Format, format_in};
use crate::blocks::kind::{Kind, kind_in};
use crate::blocks::matrix::open_matrix;
use crate::blocks::old::{open_old_bits, open_old_sequence};
use crate::blocks::queryable::Queryable;
use crate::blocks::question::asked;
use crate::blocks::reply::{Reply, Written};
use crate::blocks::sequence::open_sequence;
use crate::blocks::sparse::open_sparse;
use crate::blocks::tree::open_tree;
use program_base::runs::{CannotWrite, Form};
use program_base::text::FilledLines;
use std::alloc::Global;
use std::io::Write;

/// Writes the answers of a block, or a file of version 2, to the lines of a text, in their order and each with a line
/// feed, and answers whether each line was a question. Empty lines have no answer. As JSON an answer is a number,
/// `null` where there is none, and else an object whose `error` says why.
///
/// # Errors
/// `Unmarked` and `OtherVersion` exactly where `format_in` refuses the bytes. `WrongBlock` only where they are no block
/// that the program reads, or it is not as it was written, and no file of version 2 whose parts fit each other
/// (`is_old`). Nothing is written then. `NoMemory` where memory was refused. `CannotWrite` where a write failed.
///
/// ```
/// query(alloc, bytes, b"get 4\nrank 1 4\n".as_slice(), Form::Text, &mut out);   // Ok(true): out has "5\n2\n"
/// ```
pub fn query<W: Write>(
    alloc: Global,
    block: &[u8],
    text: &[u8],
    form: Form,
    out: &mut W,
) -> Result<bool, Failure>
    ensures answers { IfOk result (λ good. RepliesOfFile form block.now text.now
        (W.contents out.old) (W.contents out.new) good) }
    ensures refused { IfErr (format_in block.now) (λ e. result ≡ Err e) }
    ensures failure { IfOk (format_in block.now) (λ _. IfErr result IsAnswerFailure) }
    ensures wrong { IfErr result (λ e. IsRefusal e
        → (¬ (IsFileOfSoundNumbers block.now)) × (¬ (IsOldFile block.now))) }
    ensures nothing { IfErr result (λ e. IsRefusal e → out.new ≡ out.old) }
{
    match format_in(block) {
        Ok(Format::Block) => query_block(alloc, block, text, form, out),
        Ok(Format::Old) => query_old(alloc, block, text, form, out),
        Err(failure) => Err(failure),
    }
}

/// Writes what a block answers to the lines of a text, and answers whether each was a question.
fn query_block<W: Write>(
    alloc: Global,
    block: &[u8],
    text: &[u8],
    form: Form,
    out: &mut W,
) -> Result<bool, Failure>
    ensures answers { IfOk result (λ good. Replies form block.now text.now
        (W.contents out.old) (W.contents out.new) good) }
    ensures failure { IfErr result IsAnswerFailure }
    ensures wrong { IsErrOf result Failure.WrongBlock → ¬ (IsFileOfSoundNumbers block.now) }
    ensures nothing { IsErrOf result Failure.WrongBlock → out.new ≡ out.old }
{
    let Some(words) = words_of_bytes(alloc, block)? else {
        return Err(Failure::WrongBlock);
    };
    match kind_in(words.as_slice()) {
        Some(kind) => answer_kind(kind, words.as_slice(), text, form, out),
        None => Err(Failure::WrongBlock),
    }
}

/// Writes what a file of version 2 answers to the lines of a text, and answers whether each was a question.
fn query_old<W: Write>(
    alloc: Global,
    file: &[u8],
    text: &[u8],
    form: Form,
    out: &mut W,
) -> Result<bool, Failure>
    ensures answers { IfOk result (λ good. RepliesOfOld form file.now text.now
        (W.contents out.old) (W.contents out.new) good) }
    ensures failure { IfErr result IsAnswerFailure }
    ensures wrong { IsErrOf result Failure.WrongBlock → ¬ (IsOldFile file.now) }
    ensures nothing { IsErrOf result Failure.WrongBlock → out.new ≡ out.old }
{
    let Some(words) = words_of_bytes(alloc, file)? else {
        return Err(Failure::WrongBlock);
    };
    answer_old(words.as_slice(), text, form, out)
}

/// Writes what the words of a file of version 2 answer to the lines of a text, and answers whether each was a question.
fn answer_old<W: Write>(file: &[u64], text: &[u8], form: Form, out: &mut W) -> Result<bool, Failure>
    ensures answers { IfOk result (λ good.
        WroteOldBits form file.now text.now (W.contents out.old) (W.contents out.new) good
        ⊎ WroteOldSequence form file.now text.now (W.contents out.old) (W.contents out.new) good) }
    ensures failure { IfErr result IsAnswerFailure }
    ensures wrong { IsErrOf result Failure.WrongBlock → ¬ (IsOld file.now) }
    ensures nothing { IsErrOf result Failure.WrongBlock → out.new ≡ out.old }
{
    match open_old_bits(file) {
        Some(bits) => Ok(answer_lines(&bits, text, form, out)?),
        None => answer_opened(open_old_sequence(file), text, form, out),
    }
}

/// Writes what a block of a kind answers to the lines of a text, and answers whether each was a question.
fn answer_kind<W: Write>(
    kind: Kind,
    block: &[u64],
    text: &[u8],
    form: Form,
    out: &mut W,
) -> Result<bool, Failure>
    ensures sound { IfOk result (λ _. AreSoundNumbersOf kind block.now) }
    ensures answers { IfOk result (λ good. WroteAnswers form kind block.now text.now
        (W.contents out.old) (W.contents out.new) good) }
    ensures failure { IfErr result IsAnswerFailure }
    ensures wrong { IsErrOf result Failure.WrongBlock → ¬ (AreSoundNumbersOf kind block.now) }
    ensures nothing { IsErrOf result Failure.WrongBlock → out.new ≡ out.old }
{
    match kind {
        Kind::Bits => answer_opened(open_bits(block), text, form, out),
        Kind::Sequence => answer_opened(open_sequence(block), text, form, out),
        Kind::Sparse => answer_opened(open_sparse(block), text, form, out),
        Kind::Matrix => answer_opened(open_matrix(block), text, form, out),
        Kind::Tree => answer_opened(open_tree(block), text, form, out),
    }
}

/// Writes what an opened structure answers to the lines of a text, and answers whether each was a question.
fn answer_opened<Q: Queryable, W: Write>(
    opened: Option<Q>,
    text: &[u8],
    form: Form,
    out: &mut W,
) -> Result<bool, Failure>
    requires { IfSome opened Q.holds }
    ensures answers { IfOk result (λ good. IsSomeAnd opened (λ view. WroteReplies form (Q.replies view)
        (lines_of text.now) (W.contents out.old) (W.contents out.new) good)) }
    ensures failure { IfErr result IsAnswerFailure }
    ensures wrong { IsErrOf result Failure.WrongBlock → IsNone opened }
    ensures nothing { IsErrOf result Failure.WrongBlock → out.new ≡ out.old }
{
    match opened {
        Some(view) => Ok(answer_lines(&view, text, form, out)?),
        None => Err(Failure::WrongBlock),
    }
}

/// Writes what a structure answers to the lines of a text, and answers whether each was a question.
fn answer_lines<Q: Queryable, W: Write>(
    view: &Q,
    text: &[u8],
    form: Form,
    out: &mut W,
) -> Result<bool, CannotWrite>
    requires { Q.holds view.now }
    ensures { IfOk result (λ good. WroteReplies form (Q.replies view.now) (lines_of text.now)
        (W.contents out.old) (W.contents out.new) good) }
{
    let mut good = true;
    for line in FilledLines::new(text) {
        good &= answer_line(view, line, form, out)?;
    }
    Ok(good)
}

/// Writes what a structure answers to a line, and answers whether it was a question.
fn answer_line<Q: Queryable, W: Write>(
    view: &Q,
    line: &[u8],
    form: Form,
    out: &mut W,
) -> Result<bool, CannotWrite>
    requires { Q.holds view.now }
    ensures { IfOk result (WroteReply form (Q.replies view.now) line.now
        (W.contents out.old) (W.contents out.new)) }
{
    let reply = match asked(line) {
        Some(question) => view.reply(&question),
        None => Reply::BadQuestion,
    };
    let written = Written { reply, form };
    writeln!(out, "{written}")?;
    Ok(reply.is_good())
}

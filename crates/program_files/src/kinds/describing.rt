//! What the header of a block, or of a file of version 2, says.
ghost use Rattle.std.specs.Prelude.{◌≡◌, Err, IfErr, IfOk, IfSome, IsErrOf, IsNone, OnOk};
ghost use Rattle.std.specs.Io.KnownBytes.{Appends};
ghost use Rattle.program_files.specs.Failure.{IsAnswerFailure, IsRefusal};
ghost use Rattle.program_files.specs.Format.{format_in};
ghost use Rattle.program_files.specs.Old.{IsOldFile};
ghost use Rattle.program_files.specs.Info.{info_text, kind_line, old_line, old_text, rate_line, size_lines};
ghost use Rattle.program_files.specs.Info.{IsDescribed, WroteInfo, WroteInfoOfFile, WroteOldInfo};
ghost use Rattle.program_files.specs.KindsSound.{IsSound, IsSoundFile};

use crate::blocks::{Failure, Format, OldHead, format_in, old_head, words_of_bytes};
use crate::kinds::checking::is_sound;
use crate::kinds::kind::{Kind, kind_in};
use bitm_block::{Block, Head};
use program_base::runs::{CannotWrite, Form, none_in};
use std::alloc::Global;
use std::fmt;
use std::io::Write;

/// Writes what the header of a block, or of a file of version 2, says, a line each: its kind, how many items it has,
/// how many bits an item has (0 where the kind has no such width), how many bytes the file has, and how many bits that
/// is for an item, cut to hundredths; as JSON an object of these. The whole file is checked first.
///
/// # Errors
/// `Unmarked` and `OtherVersion` exactly where `blocks::format_in` refuses the bytes. `WrongBlock` only where
/// they are no block of the kind that it says, as it was written (`check`), and no file of version 2 whose parts fit
/// each other (`check_old`). Nothing is written then. `NoMemory` where memory was refused. `CannotWrite` where a write
/// failed.
/// # Cost
/// The cost of `check` (evident from the code).
///
/// ```
/// // out has "kind matrix\nlen 6\nwidth 3\nbytes 640\nbits_per_item 853.33\n"
/// info(alloc, bytes, Form::Text, &mut out);   // Ok(())
/// ```
#[tactic(auto, using(crate::proofs::lemmas::RefusalLemmas::old_refused, crate::proofs::lemmas::KindsFormatLemmas::not_sound))]
pub fn info<W: Write>(alloc: Global, block: &[u8], form: Form, out: &mut W) -> Result<(), Failure>
    ensures written { OnOk result (WroteInfoOfFile form block.now (W.contents out.old) (W.contents out.new)) }
    ensures refused { IfErr (format_in block.now) (λ e. result ≡ Err e) }
    ensures failure { IfOk (format_in block.now) (λ _. IfErr result IsAnswerFailure) }
    ensures wrong { IfErr result (λ e. IsRefusal e
        → (¬ (IsSoundFile block.now)) × (¬ (IsOldFile block.now))) }
    ensures nothing { IfErr result (λ e. IsRefusal e → out.new ≡ out.old) }
{
    match format_in(block) {
        Ok(Format::Block) => info_of_block(alloc, block, form, out),
        Ok(Format::Old) => info_of_old(alloc, block, form, out),
        Err(failure) => Err(failure),
    }
}

/// Writes what the header of a block says.
fn info_of_block<W: Write>(
    alloc: Global,
    block: &[u8],
    form: Form,
    out: &mut W,
) -> Result<(), Failure>
    ensures written { OnOk result (WroteInfo form block.now (W.contents out.old) (W.contents out.new)) }
    ensures failure { IfErr result IsAnswerFailure }
    ensures wrong { IsErrOf result Failure.WrongBlock → ¬ (IsSoundFile block.now) }
    ensures nothing { IsErrOf result Failure.WrongBlock → out.new ≡ out.old }
{
    let Some(words) = words_of_bytes(alloc, block)? else {
        return Err(Failure::WrongBlock);
    };
    match described(words.as_slice(), block.len()) {
        Some(description) => Ok(write_description(form, &description, out)?),
        None => Err(Failure::WrongBlock),
    }
}

/// Writes what the header of a file of version 2 says.
fn info_of_old<W: Write>(alloc: Global, file: &[u8], form: Form, out: &mut W) -> Result<(), Failure>
    ensures written { OnOk result (WroteOldInfo form file.now (W.contents out.old) (W.contents out.new)) }
    ensures failure { IfErr result IsAnswerFailure }
    ensures wrong { IsErrOf result Failure.WrongBlock → ¬ (IsOldFile file.now) }
    ensures nothing { IsErrOf result Failure.WrongBlock → out.new ≡ out.old }
{
    let Some(words) = words_of_bytes(alloc, file)? else {
        return Err(Failure::WrongBlock);
    };
    match old_head(words.as_slice()) {
        Some(head) => Ok(write_old(form, &head, file.len(), out)?),
        None => Err(Failure::WrongBlock),
    }
}

/// Writes the description of a file of version 2.
fn write_old<W: Write>(
    form: Form,
    head: &OldHead,
    bytes: usize,
    out: &mut W,
) -> Result<(), CannotWrite>
    ensures { OnOk result (Appends (W.contents out.old) (W.contents out.new) (old_text form head.now bytes)) }
{
    let OldHead { kind, len, width } = *head;
    write_old_kind(form, kind, &mut *out)?;
    write_sizes(form, len, width, bytes, &mut *out)?;
    write_rate(form, len, bytes, out)
}

/// Writes the line of the kind of a file of version 2.
fn write_old_kind<W: Write>(
    form: Form,
    kind: crate::blocks::Kind,
    out: &mut W,
) -> Result<(), CannotWrite>
    ensures { OnOk result (Appends (W.contents out.old) (W.contents out.new) (old_line form kind)) }
{
    match form {
        Form::Text => writeln!(out, "kind {kind} (version 2)")?,
        Form::Json => write!(out, "{{\"kind\":\"{kind} (version 2)\"")?,
    }
    Ok(())
}

/// The description of a block that has this number of bytes, and is as it was written.
#[tactic(auto, using(crate::proofs::lemmas::SoundLemmas::sound_block))]
fn described(block: &[u64], bytes: usize) -> Option<Description>
    ensures described { IfSome result (IsDescribed block.now bytes) }
    ensures wrong { IsNone result → ¬ (IsSound block.now) }
{
    let kind = kind_in(block)?;
    if !is_sound(block) {
        return None;
    }
    match Block::open(block) {
        Ok(opened) => Some(Description {
            kind,
            head: opened.head(),
            bytes,
        }),
        Err(_) => None,
    }
}

/// Writes the description of a block.
fn write_description<W: Write>(
    form: Form,
    description: &Description,
    out: &mut W,
) -> Result<(), CannotWrite>
    ensures { OnOk result (Appends (W.contents out.old) (W.contents out.new)
        (info_text form description.now.kind description.now.head description.now.bytes)) }
{
    let Description { kind, head, bytes } = *description;
    write_kind(form, kind, &mut *out)?;
    write_sizes(form, head.len, head.width, bytes, &mut *out)?;
    write_rate(form, head.len, bytes, out)
}

/// Writes the line of the kind.
fn write_kind<W: Write>(form: Form, kind: Kind, out: &mut W) -> Result<(), CannotWrite>
    ensures { OnOk result (Appends (W.contents out.old) (W.contents out.new) (kind_line form kind)) }
{
    match form {
        Form::Text => writeln!(out, "kind {kind}")?,
        Form::Json => write!(out, "{{\"kind\":\"{kind}\"")?,
    }
    Ok(())
}

/// Writes the lines of the sizes.
fn write_sizes<W: Write>(
    form: Form,
    len: u64,
    width: u64,
    bytes: usize,
    out: &mut W,
) -> Result<(), CannotWrite>
    ensures { OnOk result (Appends (W.contents out.old) (W.contents out.new) (size_lines form len width bytes)) }
{
    match form {
        Form::Text => write!(out, "len {len}\nwidth {width}\nbytes {bytes}\n")?,
        Form::Json => write!(out, ",\"len\":{len},\"width\":{width},\"bytes\":{bytes}")?,
    }
    Ok(())
}

/// Writes the line of the bits for an item.
fn write_rate<W: Write>(form: Form, len: u64, bytes: usize, out: &mut W) -> Result<(), CannotWrite>
    ensures { OnOk result (Appends (W.contents out.old) (W.contents out.new) (rate_line form bytes len)) }
{
    let rate = Rate { form, bytes, len };
    match form {
        Form::Text => writeln!(out, "bits_per_item {rate}")?,
        Form::Json => writeln!(out, ",\"bits_per_item\":{rate}}}")?,
    }
    Ok(())
}

/// The description of a block: its kind, the numbers of its header, and its bytes.
#[derive(Clone, Copy)]
struct Description {
    kind: Kind,
    head: Head,
    bytes: usize,
}

/// How many bits of a block there are for an item, in the form in which that is written.
#[derive(Clone, Copy)]
struct Rate {
    form: Form,
    bytes: usize,
    len: u64,
}

impl fmt::Display for Rate {
    ghost use Rattle.std.specs.Prelude.{Some};
    ghost use Rattle.program_files.specs.Info.{rate_text};

    ghost output = { λ r. Some (rate_text r.form r.bytes r.len) };

    fn fmt<W: fmt::Write>(&self, f: &mut fmt::Formatter<W>) -> fmt::Result {
        if self.len == 0 {
            return write!(f, "{}", none_in(self.form));
        }
        let hundredths = 800 * self.bytes as u128 / self.len as u128;
        let (whole, part) = (hundredths / 100, hundredths % 100);
        write!(f, "{}.{}{}", whole, part / 10, part % 10)
    }
}

//! The header, the directory and the checksums of a block, written around its sections.
ghost use Rattle.std.specs.Prelude.{◌≡◌, ◌≢◌, ◌+◌, ◌-◌, ◌*◌, ◌^◌, ◌<◌, ◌≤◌, ◌↔◌, ◌++◌, All, IfErr, IfOk};
ghost use Rattle.std.specs.Prelude.{IsErrOf, drop, length, replicate, sum_by, take};
ghost use Rattle.bitm_block.specs.Layout.{end_of, head_of, room_of, AreShort};
ghost use Rattle.bitm_block.specs.Written.{block_of, body_of, directory_entry, directory_of, entries_of, header_of};
ghost use Rattle.bitm_block.specs.Written.{IsSealed};

use crate::checksum::checksum_of;
use crate::error::WriteError;
use crate::head::Head;
use crate::layout::{ENTRY_WORDS, HEADER_WORDS, Section, head_len, size};

/// The letters `bitmtab`, lowest byte first, and version 4.
const MARK: u64 = 0x0462_6174_6d74_6962;

/// Writes zeros over at most seven words, up to the next section.
fn clear_gap(words: &mut [u64])
    requires { length words.old ≤ 7 }
    ensures { words.new ≡ replicate (length words.old) 0 }
{
    // A loop over all words would be compiled to a call of C's `memset`, and the archive for C calls nothing.
    for at in 0..7 {
        if at < words.len() {
            words[at] = 0;
        }
    }
}

/// Writes zeros from word `first` on, after which there are at most seven words.
fn clear_from(words: &mut [u64], first: usize)
    requires first { first ≤ length words.old }
    requires few { length words.old ≤ first + 7 }
    ensures { words.new ≡ take first words.old ++ replicate (length words.old - first) 0 }
{
    let (_kept, rest) = words.split_at_mut(first);
    clear_gap(rest);
}

/// Writes the entry of a section that begins at word `at` of its block.
fn write_entry(section: Section, at: usize, words: &[u64], entry: &mut [u64])
    requires long { length entry.old ≡ 4 }
    requires near { at < 2 ^ 61 }
    ensures { entry.new ≡ directory_entry section at words.now }
{
    let fields = [
        section.role,
        8 * at as u64,
        section.count,
        checksum_of(words),
    ];
    entry.copy_from_slice(fields.as_slice());
}

/// Writes the entries of sections, and zeros after the words of each; the first of them begins at word `at` of the
/// block.
fn write_sections(sections: &[Section], at: usize, entries: &mut [u64], body: &mut [u64])
    requires counts { All (λ s. s.count < 2 ^ 58) sections.now }
    requires entries { length entries.old ≡ 4 * length sections.now }
    requires body { length body.old ≡ sum_by room_of sections.now }
    requires near { at + length body.old < 2 ^ 60 }
    ensures entries { entries.new ≡ entries_of at sections.now body.old }
    ensures body { body.new ≡ body_of sections.now body.old }
{
    let Some((section, later)) = sections.split_first() else {
        return;
    };
    let section = *section;
    let (words, rest) = body.split_at_mut(section.room());
    let (entry, others) = entries.split_at_mut(ENTRY_WORDS);
    write_entry(section, at, &words[..section.words()], entry);
    clear_from(words, section.words());
    write_sections(later, at + section.room(), others, rest);
}

/// Writes the directory, and zeros after the words of each section.
fn write_directory(sections: &[Section], directory: &mut [u64], body: &mut [u64])
    requires short { AreShort sections.now }
    requires directory { length directory.old + 16 ≡ head_of (length sections.now) }
    requires body { length body.old ≡ sum_by room_of sections.now }
    ensures directory { directory.new ≡ directory_of sections.now body.old }
    ensures body { body.new ≡ body_of sections.now body.old }
{
    let (entries, padding) = directory.split_at_mut(ENTRY_WORDS * sections.len());
    write_sections(sections, head_len(sections.len()), entries, body);
    clear_gap(padding);
}

/// Writes the header of a block of `len` words and the given number of sections, whose directory has the checksum
/// `sum`.
fn write_header(head: &Head, sections: usize, len: usize, sum: u64, header: &mut [u64])
    requires long { length header.old ≡ 16 }
    requires short { len < 2 ^ 60 }
    ensures { header.new ≡ header_of head.now sections len sum }
{
    let fields = [
        MARK,
        head.kind,
        8 * len as u64,
        head.len,
        head.width,
        head.ones_log2,
        head.zeros_log2,
        0,
        head.a,
        head.b,
        head.c,
        sections as u64,
        0,
        0,
        sum,
    ];
    let (front, last) = header.split_at_mut(15);
    front.copy_from_slice(fields.as_slice());
    last.copy_from_slice([checksum_of(fields.as_slice())].as_slice());
}

/// What `seal` writes, where the sections and the words of the block are known to fit.
///
/// # Conditions
/// `size` of the sections is the number of words.
/// # Cost
/// The cost of `seal`.
///
/// ```
/// seal_sized(&head, sections.as_slice(), block.as_mut_slice());   // as `seal`, where that answers Ok(())
/// ```
pub fn seal_sized(head: &Head, sections: &[Section], block: &mut [u64])
    requires short { AreShort sections.now }
    requires room { length block.old ≡ end_of sections.now }
    ensures words { block.new
        ≡ block_of head.now sections.now (drop (head_of (length sections.now)) block.old) }
    ensures sealed { IsSealed head.now sections.now block.old block.new }
{
    let len = block.len();
    let (front, body) = block.split_at_mut(head_len(sections.len()));
    let (header, directory) = front.split_at_mut(HEADER_WORDS);
    write_directory(sections, &mut *directory, body);
    write_header(head, sections.len(), len, checksum_of(&*directory), header);
}

/// Writes the header, the directory with its checksums, and zeros between the sections of a block, whose words are
/// there already (`size`; each section begins at the first multiple of 8 words after the one before). The same
/// numbers, sections and words make the same block, on every machine.
///
/// # Errors
/// `TooLarge` exactly where `size` answers `None`; else `WrongLength` exactly where the words are more or fewer than
/// the block takes. The words stay as they are then.
/// # Cost
/// One pass over the words of the sections (evident from the code).
///
/// ```
/// let sections = [Section { role: 1, count: 30 }];
/// let mut block = [0u64; 56];                               // size(&sections) words; the section is block[24..54]
/// seal(&head, sections.as_slice(), block.as_mut_slice());   // Ok(())
/// ```
pub fn seal(head: &Head, sections: &[Section], block: &mut [u64]) -> Result<(), WriteError>
    ensures too_large { IsErrOf result WriteError.TooLarge ↔ (¬ (AreShort sections.now)) }
    ensures wrong_length { IsErrOf result WriteError.WrongLength
        ↔ (AreShort sections.now × (length block.old ≢ end_of sections.now)) }
    ensures kept { IfErr result (λ _. block.new ≡ block.old) }
    ensures words { IfOk result (λ _. block.new
        ≡ block_of head.now sections.now (drop (head_of (length sections.now)) block.old)) }
    ensures sealed { IfOk result (λ _. IsSealed head.now sections.now block.old block.new) }
{
    let Some(len) = size(sections) else {
        return Err(WriteError::TooLarge);
    };
    if block.len() != len {
        return Err(WriteError::WrongLength);
    }
    seal_sized(head, sections, block);
    Ok(())
}

//! The sections of a block and one more, and their words where the new block has them.
ghost use Rattle.std.specs.Prelude.{◌≡◌, ◌+◌, ◌<◌, length, take};
ghost use Rattle.bitm_block.specs.Header.{count_in};
ghost use Rattle.block_sections.specs.Extended.{body_in, extended_sections, HasSectionRoom, StandsExtended};

use bitm_block::{Block, Section, copy_items, head_len};

/// Writes the sections of a block to the front of a list, and one more after them.
pub(crate) fn list_sections(block: &Block<'_>, added: &Section, list: &mut [Section])
    requires { count_in block.now < length list.old }
    ensures list { take (count_in block.now + 1) list.new ≡ extended_sections block.now added.now }
    ensures len { length list.new ≡ length list.old }
{
    let count = block.sections();
    for i in 0..count {
        match block.entry(i) {
            Some(section) => list[i] = section,
            None => unreachable!(),
        }
    }
    list[count] = *added;
}

/// Copies the sections of a block, and the words of one more after them, to where the new block has them.
pub(crate) fn copy_parts(block: &Block<'_>, added: &Section, words: &[u64], to: &mut [u64])
    requires { HasSectionRoom block.now added.now words.now to.old }
    ensures stands { StandsExtended block.now words.now to.new }
    ensures len { length to.new ≡ length to.old }
{
    let count = block.sections();
    let body = &block.words()[head_len(count)..];
    let (_head, rest) = to.split_at_mut(head_len(count + 1));
    let (kept, rest) = rest.split_at_mut(body.len());
    copy_items(kept, body);
    let (part, _gap) = rest.split_at_mut(words.len());
    copy_items(part, words);
}

//! Where the sections of a block stand.
ghost use Rattle.std.specs.Prelude.{◌≡◌, ◌+◌, ◌*◌, ◌^◌, ◌<◌, ◌≤◌, ◌↔◌, length, sum_by, IsSome, IfSome};
ghost use Rattle.bitm_block.specs.Layout.{aligned, end_of, head_of, item_words, room_of, words_of, AreShort};

/// The 64-bit words of a header, without the directory.
pub const HEADER_WORDS: usize = 16;

/// The 64-bit words of one entry of the directory.
pub const ENTRY_WORDS: usize = 4;

/// The greatest number of sections.
pub const MOST_SECTIONS: usize = 16;

/// What one section is: its role says how many bytes an item has (`docs/FORMAT.md`), and `count` how many items there
/// are.
///
/// ```
/// Section { role: 1, count: 30 };   // 30 words of bits
/// ```
#[derive(Clone, Copy, Debug, PartialEq, Eq)]
pub struct Section {
    /// What the items are.
    pub role: u64,
    /// How many there are.
    pub count: u64,
}

/// The first multiple of 8 from a number on: where the next section begins after words that end there.
///
/// # Conditions
/// The number is less than 2^63.
///
/// ```
/// aligned(33);   // 40
/// ```
#[inline(always)]
pub fn aligned(at: usize) -> usize
    requires { at < 2 ^ 63 }
    ensures { result ≡ aligned at }
{
    (at + 7) / 8 * 8
}

/// How many words the given number of items of a role takes.
#[inline(always)]
fn item_words(role: u64, count: u64) -> usize
    requires { count < 2 ^ 58 }
    ensures words { result ≡ item_words role count }
    ensures most { result ≤ count }
{
    if role == 7 || role == 8 {
        return (count as usize).div_ceil(2);
    }
    if role == 15 || role >= 1 << 16 {
        return (count as usize).div_ceil(8);
    }
    count as usize
}

impl Section {
    /// A section of the given role and number of items.
    ///
    /// ```
    /// Section::of(1, 30);   // Section { role: 1, count: 30 }
    /// ```
    #[inline(always)]
    pub fn of(role: u64, count: usize) -> Section
        ensures { result ≡ record { role = role; count = count } }
    {
        Section {
            role,
            count: count as u64,
        }
    }

    /// How many words the items take: eight bytes each, but four each for the roles 7 and 8, and one each for role 15
    /// and those from 2^16 on.
    ///
    /// # Conditions
    /// There are fewer than 2^58 items.
    ///
    /// ```
    /// Section { role: 7, count: 9 }.words();   // 5: samples have four bytes
    /// ```
    #[inline(always)]
    pub fn words(&self) -> usize
        requires { self.now.count < 2 ^ 58 }
        ensures words { result ≡ words_of self.now }
        ensures most { result < 2 ^ 58 }
    {
        item_words(self.role, self.count)
    }

    /// How many words the section takes in a block, with the zeros up to the next one.
    #[inline(always)]
    pub(crate) fn room(&self) -> usize
        requires { self.now.count < 2 ^ 58 }
        ensures room { result ≡ room_of self.now }
        ensures most { result ≤ 2 ^ 58 }
    {
        aligned(self.words())
    }
}

/// How many words header and directory take with the given number of sections: where the first section begins.
///
/// # Conditions
/// There are at most 16 sections.
///
/// ```
/// head_len(1);   // 24: 16 words of the header and 4 of an entry, up to the next multiple of 8
/// ```
#[inline(always)]
pub fn head_len(sections: usize) -> usize
    requires { sections ≤ 16 }
    ensures head { result ≡ head_of sections }
    ensures most { result ≤ 80 }
{
    aligned(HEADER_WORDS + ENTRY_WORDS * sections)
}

/// How many words the block of these sections has; `None` exactly where there are more than 16 sections, one of them
/// has 2^58 items or more, or the block would have 2^60 words or more.
///
/// ```
/// size([Section { role: 1, count: 30 }].as_slice());   // Some(56): 24 for header and directory, 32 for the section
/// ```
pub fn size(sections: &[Section]) -> Option<usize>
    ensures some { IsSome result ↔ AreShort sections.now }
    ensures size { IfSome result (λ n. n ≡ end_of sections.now) }
{
    if sections.len() > MOST_SECTIONS {
        return None;
    }
    let mut at = head_len(sections.len());
    for section in sections {
        if section.count >= 1 << 58 {
            return None;
        }
        at += section.room();
    }
    if at < 1 << 60 { Some(at) } else { None }
}

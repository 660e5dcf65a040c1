//! How many words lines and their table take.
ghost use Rattle.std.specs.Prelude.{◌≡◌, ◌+◌, ◌*◌, ◌/◌, ◌↔◌, IsTrue};
ghost use Rattle.digits.specs.Tables.{HasDigitSizes, digit_lists};

/// Digits in a line.
pub const DIGITS_PER_LINE: usize = 224;

/// Words in a line: the counts, and seven of digits.
pub const WORDS_PER_LINE: usize = 8;

/// Lines of which one entry of the table has the counts before them.
pub const LINES_PER_ENTRY: usize = 256;

/// The words of the lines of `len` digits: a line begins at or before each position up to `len`, which a rank of all
/// digits reads.
///
/// ```
/// lines_len(223);   // 8
/// lines_len(224);   // 16
/// ```
pub fn lines_len(len: usize) -> usize
    ensures { result ≡ 8 * (len / 224 + 1) }
{
    WORDS_PER_LINE * (len / DIGITS_PER_LINE + 1)
}

/// The numbers of the table of `len` digits: four for each 256 lines.
///
/// ```
/// table_len(57343);   // 4
/// table_len(57344);   // 8
/// ```
pub fn table_len(len: usize) -> usize
    ensures { result ≡ 4 * (len / 224 / 256 + 1) }
{
    4 * (len / DIGITS_PER_LINE / LINES_PER_ENTRY + 1)
}

/// Whether lines and table have the lengths that `len` digits need, and the lines are fewer than 2^58 words.
///
/// ```
/// have_sizes(&[0; 8], &[0; 4], 223);   // true
/// ```
#[inline(always)]
pub fn have_sizes(lines: &[u64], table: &[u64], len: usize) -> bool
    ensures { IsTrue result ↔ HasDigitSizes (digit_lists lines.now table.now len) }
{
    if lines.len() >= 1 << 58 || lines.len() != lines_len(len) {
        return false;
    }
    table.len() == table_len(len)
}

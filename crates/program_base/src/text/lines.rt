//! The lines of a text, and the parts of a line.
ghost use Rattle.std.specs.Prelude.{◌≡◌, ◌<◌, ◌∷◌, [], IfSome, MatchOption, length, option_map};
ghost use Rattle.std.specs.Iterator.{YieldsFirstBy, item_count};
ghost use Rattle.std.specs.Str.Lines.{lines, strip_carriage_return};
ghost use Rattle.program_base.specs.Text.{lines_of, only_part, parts_left, split_at, split_left};

use std::marker::Model;

/// The first part of a text, and what follows the separator after it, if one stands there.
///
/// ```
/// first_part(b"rank 5".as_slice(), b' ');   // (b"rank", Some(b"5"))
/// ```
pub fn first_part(text: &[u8], separator: u8) -> (&[u8], Option<&[u8]>)
    ensures parts { split_at separator text.now ≡ result.0.now ∷ split_left separator result.1 }
    ensures shorter { IfSome result.1 (λ rest. length rest.now < length text.now) }
{
    match text.iter().position(|byte| *byte == separator) {
        Some(at) => (&text[..at], Some(&text[at + 1..])),
        None => (text, None),
    }
}

/// The one part that is left of a line, where there is just one: parts are separated by single spaces.
///
/// ```
/// only_part(Some(b"5".as_slice()));     // Some(b"5")
/// only_part(Some(b"5 6".as_slice()));   // None
/// ```
pub fn only_part(rest: Option<&[u8]>) -> Option<&[u8]>
    ensures { option_map (λ part. part.now) result ≡ only_part (parts_left rest.entry) }
{
    match first_part(rest?, b' ') {
        (part, None) => Some(part),
        (_, Some(_)) => None,
    }
}

/// A line without the carriage return at its end, if it has one.
fn without_return(line: &[u8]) -> &[u8]
    ensures { result.now ≡ strip_carriage_return line.now }
{
    match line.split_last() {
        Some((last, front)) if *last == b'\r' => front,
        _ => line,
    }
}

/// The first line of a text, and what follows it; `None` where the text is empty. Lines end with a line feed; the last
/// one may lack it. A carriage return before a line feed is not part of the line.
pub(crate) fn first_line(text: &[u8]) -> Option<(&[u8], &[u8])>
    ensures line { MatchOption result (lines text.now ≡ [])
        (λ found. lines text.now ≡ found.0.now ∷ lines found.1.now) }
    ensures shorter { IfSome result (λ found. length found.1.now < length text.now) }
{
    if text.is_empty() {
        return None;
    }
    let (line, rest) = first_part(text, b'\n');
    match rest {
        Some(rest) => Some((without_return(line), rest)),
        None => Some((text, &[])),
    }
}

/// The lines of a text, the empty ones too. Lines end with a line feed; the last one may lack it. A carriage return
/// before a line feed is not part of the line. Contracts see the lines that are left.
///
/// ```
/// Lines::new(b"1\r\n\n2".as_slice()).next();   // Some(b"1")
/// ```
#[derive(Drop)]
pub struct Lines<'a> {
    rest: &'a [u8],
}

impl<'a> Model for Lines<'a> {
    ghost use Rattle.std.specs.Prelude.{ℕ, List};
    ghost use Rattle.std.specs.Str.Lines.{lines};

    ghost Value = { List (List ℕ) };

    ghost view = { λ l. lines l.rest.now };
}

impl<'a> Lines<'a> {
    /// The lines of a text, from its first one on.
    ///
    /// ```
    /// for line in Lines::new(input) { .. }
    /// ```
    pub fn new(text: &'a [u8]) -> Lines<'a>
        ensures { result ≡ lines text.now }
    {
        Lines { rest: text }
    }
}

impl<'a> Iterator for Lines<'a> {
    type Item = &'a [u8];

    ghost next_gives = { YieldsFirstBy (λ line. line.now) (λ lines. lines) };

    ghost remaining = { item_count (λ lines. lines) };

    fn next(&mut self) -> Option<&'a [u8]> {
        let (line, rest) = first_line(self.rest)?;
        self.rest = rest;
        Some(line)
    }
}

/// The lines of a text that are not empty (`Lines`). Contracts see the lines that are left.
///
/// ```
/// FilledLines::new(b"1\n\n2".as_slice()).next();   // Some(b"1")
/// ```
#[derive(Drop)]
pub struct FilledLines<'a> {
    lines: Lines<'a>,
}

impl<'a> Model for FilledLines<'a> {
    ghost use Rattle.std.specs.Prelude.{ℕ, List};
    ghost use Rattle.program_base.specs.Text.{without_empty};

    ghost Value = { List (List ℕ) };

    ghost view = { λ l. without_empty l.lines };
}

impl<'a> FilledLines<'a> {
    /// The lines of a text, from its first one on.
    ///
    /// ```
    /// for line in FilledLines::new(input) { .. }
    /// ```
    pub fn new(text: &'a [u8]) -> FilledLines<'a>
        ensures { result ≡ lines_of text.now }
    {
        FilledLines {
            lines: Lines::new(text),
        }
    }
}

impl<'a> Iterator for FilledLines<'a> {
    type Item = &'a [u8];

    ghost next_gives = { YieldsFirstBy (λ line. line.now) (λ lines. lines) };

    ghost remaining = { item_count (λ lines. lines) };

    fn next(&mut self) -> Option<&'a [u8]> {
        while let Some(line) = self.lines.next() {
            if !line.is_empty() {
                return Some(line);
            }
        }
        None
    }
}

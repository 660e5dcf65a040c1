//! The lines of an input that are not empty.
ghost use Rattle.std.specs.Prelude.{◌≡◌};
ghost use Rattle.std.specs.Iterator.{YieldsFirstBy, item_count};
ghost use Rattle.program_base.specs.Lines.{command_lines};

use crate::text::first_part;
use std::marker::Model;

/// The lines of an input that are not empty, each a command. Lines end with a line feed, and a carriage return is part
/// of one; the last line may lack the line feed. Contracts see the lines that are left.
#[derive(Drop)]
pub(crate) struct CommandLines<'a> {
    rest: Option<&'a [u8]>,
}

impl<'a> Model for CommandLines<'a> {
    ghost use Rattle.std.specs.Prelude.{ℕ, List};
    ghost use Rattle.program_base.specs.Text.{split_left, without_empty};

    ghost Value = { List (List ℕ) };

    ghost view = { λ lines. without_empty (split_left 10 lines.rest) };
}

impl<'a> CommandLines<'a> {
    /// The lines of an input, from its first one on.
    pub(crate) fn new(input: &'a [u8]) -> CommandLines<'a>
        ensures { result ≡ command_lines input.now }
    {
        CommandLines { rest: Some(input) }
    }
}

impl<'a> Iterator for CommandLines<'a> {
    type Item = &'a [u8];

    ghost next_gives = { YieldsFirstBy (λ line. line.now) (λ lines. lines) };

    ghost remaining = { item_count (λ lines. lines) };

    fn next(&mut self) -> Option<&'a [u8]> {
        while let Some(text) = self.rest {
            let (line, rest) = first_part(text, b'\n');
            self.rest = rest;
            if !line.is_empty() {
                return Some(line);
            }
        }
        None
    }
}

//! One level of the block of a matrix after another, for a caller that says how far it is.
ghost use Rattle.std.specs.Prelude.{◌≡◌, ◌+◌, ◌<◌, ◌≤◌, length};
ghost use Rattle.levels_view.specs.Levels.{AreNumbers};
ghost use Rattle.matrix_levels.specs.Matrix.{matrix_words};
ghost use Rattle.matrix_block.specs.Block.{first_at};
ghost use Rattle.matrix_block.specs.Levelwise.{LevelsRoundTrip, WritesLevel};

use crate::sections::{Lens, first_at};
use matrix_levels::write_level_of;
use tables_view::clear;

/// Writes one level of the block of these numbers of `width` bits, with quarters or without and with hints or without,
/// in the order of that level, and puts the numbers in the order of the next level. Levels 0 to `width - 1` and then
/// `seal_levels`, of the same block, write the block of the numbers, if these have no more bits than the width
/// (`levels_round_trip`). Level 0 clears the words of all levels first. Of each number bit `width - 1 - depth` is used
/// and nothing else; what the scratch has is overwritten.
///
/// # Conditions
/// `size` takes the numbers and the width, and the block is as long as it says; the level is one of the width's; the
/// scratch is as long as the numbers.
/// # Cost
/// Two passes over the numbers, and at level 0 one over the words of the levels (evident from the code). Nothing is
/// allocated.
///
/// ```
/// let (mut numbers, mut scratch) = ([3u64, 1, 4, 1, 5, 1], [0u64; 6]);
/// let mut block = [0u64; 80];                    // size(6, 3, false, false) words
/// for depth in 0..3 {
///     write_level(&mut numbers, 3, false, false, depth, &mut scratch, &mut block);
/// }
/// seal_levels(6, 3, false, false, &mut block);   // as build of 3, 1, 4, 1, 5, 1
/// ```
pub fn write_level(
    numbers: &mut [u64],
    width: u8,
    quarters: bool,
    hints: bool,
    depth: u8,
    scratch: &mut [u64],
    block: &mut [u64],
)
    requires numbers { AreNumbers (length numbers.old) width }
    requires depth { depth < width }
    requires scratch { length scratch.old ≡ length numbers.old }
    requires room { first_at quarters hints + matrix_words (length numbers.old) width
        ≤ length block.old }
    ensures { WritesLevel width depth (first_at quarters hints)
        numbers.old numbers.new block.old block.new }
{
    let (_head, rest) = block.split_at_mut(first_at(quarters, hints));
    let (words, _tables) = rest.split_at_mut(Lens::of(numbers.len(), width as usize).words);
    if depth == 0 {
        clear(&mut *words);
    }
    write_level_of(words, numbers, scratch, width, depth);
}

/// After each call of `write_level` the levels up to there are those of the numbers, and after the last one
/// `seal_levels` writes the block of the numbers, if these have no more bits than the width.
///
/// ```
/// levels_round_trip();   // its clause is the law, over the clauses of `write_level` and `seal_levels`
/// ```
pub fn levels_round_trip()
    ensures { LevelsRoundTrip }
{}

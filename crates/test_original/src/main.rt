//! Replays a file of answers of the original crate against the calls of `bitm`.
//!
//! The file, `data/answers.txt`, was printed by a program over the Rust crate `bitm`, unchanged, and each answer was
//! computed again from the definitions by a second program, which shares no code with that crate: none differed. The
//! answers stay as they were printed.
//!
//! A line is a kind and then words, with one space between two of them; `#` begins a comment. Numbers are decimal,
//! words and bytes hexadecimal; V is decimal but where a line below says hexadecimal. `-` stands for `None`. A list has
//! items X, runs X*COUNT (COUNT items X), and runs X+STEP*COUNT (COUNT items X, X+STEP, X+2*STEP, ..). ID is the name
//! of the last `content` above. A:V is an argument and its answer; a line may have several. KIND is the density of
//! samples: cM is the same for all words, aM adapts to them; D is its logarithm.
//!
//! | Line | What it says |
//! |---|---|
//! | `content ID COUNT WORDS` | a name and its words, COUNT of them |
//! | `ones ID TOTAL` | the number of 1 bits |
//! | `rank ID I:V..`, `rank0 ID I:V..` | 1 bits or 0 bits before position I, by `try_rank` and `try_rank0` |
//! | `select ID R:V..`, `select0 ID R:V..` | the 1 bit or 0 bit with rank R, by `try_select` and `try_select0` |
//! | `simple ID N..` | the 1 bits before each run of 512 bits; the last run may be partial |
//! | `l1 ID N..`, `l2 ID WORDS` | the upper and the lower table of an index |
//! | `l2at ID J:WORD..` | entries J of the lower table, where it is long |
//! | `samples ID KIND B D BEGINS / WORDS` | where the samples of bits B of each upper block start, and the samples |
//! | `samplesat ID KIND B D COUNT BEGINS / J:WORD..` | `samples` for long lists: their number, and samples J |
//! | `ocs LEN N V..` | `optimal_combined_sampling(N, LEN, M)` where M is 7, 8, 13, 14, 15 and 31 |
//! | `bits ID S,L:V..` | the number that L bits from S on are, V hexadecimal, by `try_get_bits` |
//! | `raw ID S,L:V..` | the same by `try_get_bits_unmasked` |
//! | `find ID S:V..`, `rfind ID S:V..` | the nearest 1 bit from S on, and up to S |
//! | `trail ID V` | the number of 0 bits before the first 1 bit |
//! | `set ID S L V / WORDS` | the words after `set_bits(S, V, L)`, V hexadecimal here and in the next lines |
//! | `xor ID S L V / WORDS` | the words after `xor_bits(S, V, L)` |
//! | `init S L V / WORDS` | the words after `init_bits(S, V, L)` on as many zero words |
//! | `swap ID I J L / WORDS` | the words after `swap_fragments(I, J, L)` |
//! | `sel64 WORD P..` | the positions of the 1 bits of a word, by `select64` at each rank |
//! | `ceil N D V` | N divided by D, rounded up |
//! | `store N V` | `bits_to_store(N)` |
//! | `bytes BYTES` | the bytes of the lines below it |
//! | `get57 K V`, `get25 K V` | a read of eight or four of those bytes at first bit K, V hexadecimal |
//! | `init57 K V / BYTES`, `init25 K V / BYTES` | the bytes after such a write of V, hexadecimal, to zero bytes |
//! | `set57 K V MASK / BYTES`, `set25 K V MASK / BYTES` | the same under a mask, hexadecimal too |
//!
//! At the exact length that crate answers no rank, and `bitm` the total. So where a pair of `rank` or `rank0` has the
//! exact length and `-`, the total is expected, which the line `ones` before it says (zeros are the other bits). These
//! pairs are counted by themselves.
//!
//! `try_select` and `try_select0` are compared both by binary search and by samples.
//!
//! The program prints each difference, up to ten, a line for each kind, and one for the ranks at the exact
//! length, and ends with status 0 where nothing differs.
#![tactic(auto)]

// What is in each file:
// - `bytes`: reads and writes of bytes
// - `conditions`: the conditions of our calls, tested when the program runs
// - `content`: the words and the bytes that the lines are about
// - `fault`: why a line could not be replayed
// - `found`: what a line shows
// - `index`: the index by which tables, selection and samples are replayed
// - `ranks`: ranks
// - `reads`: reads of ranges, and the nearest bits
// - `replay`: replays the lines in order, each by its kind
// - `report`: what all lines show, a tally for each kind
// - `samples`: samples
// - `selection`: selection by each strategy
// - `tables`: the two tables of an index
// - `text`: the words of a line, and the numbers that they write
// - `word`: numbers and single words
// - `writes`: writes of ranges and fragments
mod bytes;
mod conditions;
mod content;
mod fault;
mod found;
mod index;
mod ranks;
mod reads;
mod replay;
mod report;
mod samples;
mod selection;
mod tables;
mod text;
mod word;
mod writes;

use std::process::ExitCode;
use std::rt::Files;
use std::{env, fs, io};

fn main(rt: HostRuntime) -> io::Result<ExitCode> {
    let mut args = env::args(&rt)?.skip(1);
    let (Some(path), None) = (args.next(), args.next()) else {
        eprintln!(rt; "usage: test_original FILE")?;
        return Ok(ExitCode::FAILURE);
    };
    replay_file(&rt, path.as_str())
}

/// Replays the lines of a file, and answers the status that the program ends with.
fn replay_file(rt: &(impl Files + Print + AllocGlobal), path: &str) -> io::Result<ExitCode> {
    let text = fs::read_to_string(rt, path)?;
    let report = replay::replay(rt.alloc(), text.as_str())?;
    report.print(rt)?;
    if report.is_clean() {
        Ok(ExitCode::SUCCESS)
    } else {
        Ok(ExitCode::FAILURE)
    }
}

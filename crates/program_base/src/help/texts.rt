//! The help for each topic.
ghost use Rattle.std.specs.Prelude.{◌≡◌};
ghost use Rattle.program_base.specs.Texts.{help_text};

use crate::help::topic::Topic;

/// The help for all commands.
const ALL: &str = "bitm builds files of numbers, texts and strings, and answers questions to them.

  bitm build KIND < NUMBERS > BLOCK          the block of numbers, one a line
    seq 0 7 1000 | bitm build bits > sevens.block
  bitm query BLOCK < QUESTIONS               the answers of such a block, one a line
    echo 'rank 100' | bitm query sevens.block
  bitm check BLOCK                           whether a block of any kind is as it was written
    bitm check sevens.block
  bitm info BLOCK                            what the header of a block says
    bitm info sevens.block
  bitm text build < TEXT > BLOCK             the index of a text
    bitm text build < book.txt > book.block
  bitm text count PATTERN BLOCK              at how many positions the pattern stands in the text
    bitm text count whale book.block
  bitm text count -f FILE BLOCK              the same of each pattern of a file, one a line
    bitm text count -f words.txt book.block
  bitm text locate PATTERN BLOCK             these positions, counted from 0
    bitm text locate whale book.block
  bitm text locate -f FILE BLOCK             the positions of any pattern of a file
    bitm text locate -f words.txt book.block
  bitm text lines PATTERN BLOCK              the lines that have the pattern, counted from 1
    bitm text lines whale book.block
  bitm text lines -f FILE BLOCK              the lines that have any pattern of a file
    bitm text lines -f words.txt book.block
  bitm strings build < LINES > BLOCK         a number for each line
    bitm strings build < names.txt > names.block
  bitm strings find BLOCK < LINES            the numbers of lines
    echo ada | bitm strings find names.block
  bitm info --json BLOCK                     the same as JSON; so query, check, strings find and the questions to a text
    bitm info --json sevens.block
  bitm COMMAND --help, bitm help COMMAND     more of one of build, query, check, info, text and strings
    bitm query --help
  bitm --help, bitm -h, bitm help            this text
    bitm --help
  bitm --version                             the version
    bitm --version

The status is 0 where all went well, 1 where a line is a bad question, a block is wrong, or no pattern or line is found,
and 2 where there is no answer; then standard error says why.";

/// The help for `build`.
const BUILD: &str = "bitm build KIND < NUMBERS > BLOCK

Reads numbers, one a line, and writes the block that holds them. KIND is one of these:

  bits       the numbers are positions of 1 bits, in any order
  sparse     the same, each greater than the one before it: few 1 bits among many
  sequence   numbers, none less than the one before it
  matrix     numbers in any order
  tree       how many children each node has, level by level from the root

  seq 0 7 1000 | bitm build bits > sevens.block";

/// The help for `query`.
const QUERY: &str = "bitm query BLOCK < QUESTIONS
bitm query --json BLOCK < QUESTIONS

Reads questions, one a line, and writes the answers of a block of numbers, one a line: none where there is none, and
bad question where the kind of the block has no such question.

  bits, sparse   get POSITION, rank COUNT, rank0 COUNT, select RANK, select0 RANK, next POSITION, next0 POSITION,
                 previous POSITION, previous0 POSITION
  sequence       get INDEX, rank VALUE, next VALUE, previous VALUE
  matrix         get INDEX, rank NUMBER COUNT, select NUMBER RANK
  tree           parent NODE, child NODE K, degree NODE, child_rank NODE, next_sibling NODE, previous_sibling NODE

Positions, indices, ranks and nodes are counted from 0. The status is 1 where a line was a bad question. With --json
each line is a JSON value: a number, null where there is none, and {\"error\":\"bad question\"}.

  echo 'rank 100' | bitm query sevens.block";

/// The help for `check`.
const CHECK: &str = "bitm check BLOCK
bitm check --json BLOCK

Reads the whole file and writes good where it is a block of the kind that it says, as it was written, and else wrong;
then the status is 1. With --json it writes true or false.

  bitm check sevens.block";

/// The help for `info`.
const INFO: &str = "bitm info BLOCK
bitm info --json BLOCK

Writes the kind of a block, how many items it has, how many bits each of them has, how many bytes the block has, and how
many bits that is for an item, with --json as one JSON object. The whole block is checked first.

  bitm info sevens.block
  bitm info --json sevens.block";

/// The help for the commands after `text`.
const TEXT: &str = "bitm text build < TEXT > BLOCK
bitm text count PATTERN BLOCK
bitm text count -f FILE BLOCK
bitm text locate PATTERN BLOCK
bitm text locate -f FILE BLOCK
bitm text lines PATTERN BLOCK
bitm text lines -f FILE BLOCK

build writes the index of a text, by which the others answer without the text: at how many positions the bytes of
PATTERN stand, at which, counted from 0, and in which lines, counted from 1. Matches may overlap. Of the patterns of
FILE, one a line, count answers one after another, and locate and lines together; FILE may be - for the standard input.
The status is 1 where no pattern is found. --no-check before the pattern or -f leaves out the checksums of the block.
Each line that they write is a number, and so a JSON value; --json, before the pattern or -f, changes nothing.

  bitm text build < book.txt > book.block
  bitm text count whale book.block
  bitm text locate whale book.block
  bitm text lines -f words.txt book.block";

/// The help for the commands after `strings`.
const STRINGS: &str = "bitm strings build < LINES > BLOCK
bitm strings find BLOCK < LINES
bitm strings find --json BLOCK < LINES

build writes a block in which each line has a number of its own, below how many there are; no two lines may be equal.
find writes the number of each line that it reads, or none where the block has no such line, with --json null. The
status is 1 where it has none of them.

  bitm strings build < names.txt > names.block
  echo ada | bitm strings find names.block";

/// The name of the program and its version, as `VERSION` at the top of the repository says it.
pub const VERSION: &str = "bitm 0.3.0";

/// The help for a topic, without a last line feed.
pub(crate) fn help_text(topic: Topic) -> &'static str
    ensures { result.now ≡ help_text topic }
{
    match topic {
        Topic::All => ALL,
        Topic::Build => BUILD,
        Topic::Query => QUERY,
        Topic::Check => CHECK,
        Topic::Info => INFO,
        Topic::Text => TEXT,
        Topic::Strings => STRINGS,
        Topic::Version => VERSION,
    }
}

//! The vector, the index that is built over a copy of it, and what a line does to them.
ghost use Rattle.std.specs.Prelude.{◌≡◌, ◌≤◌, vec_len, IfSome, option_map, Some};
ghost use Rattle.std.specs.Box.{boxed_slice_items, boxed_slice_len};
ghost use Rattle.bitm.specs.Bits.{bits_of};
ghost use Rattle.program_base.specs.Index.{indexed_words, kind_of_index};
ghost use Rattle.program_base.specs.Request.{Request, Words, Build, Rank, Rank0, Select, Select0, Bits};
ghost use Rattle.program_base.specs.Request.{request, request_of, IsWithinLimits};
ghost use Rattle.program_base.specs.Session.{State, start, Step, changed_answer, with_bit};

use crate::session::answer::Answer;
use crate::session::command::{Command, Kind, parse};
use crate::session::index::Index;
use bitm::words::{set_bit_to, try_get_bits};
use std::alloc::Global;
use std::boxed::BoxedSlice;
use std::marker::Model;

/// A vector, empty at first, and the index that is built.
#[derive(Drop)]
pub(crate) struct Session {
    words: BoxedSlice<u64, Global>,
    index: Option<Index>,
}

impl Model for Session {
    ghost Value = { State };

    ghost view = { λ s. record {
      bits = bits_of (boxed_slice_items s.words);
      built = option_map kind_of_index s.index;
    } };

    ghost invariant = { λ s. (boxed_slice_len s.words ≤ 65536)
        × IfSome s.index (λ index. indexed_words index ≡ boxed_slice_items s.words) };
}

impl Session {
    /// An empty vector, and nothing built.
    #[tactic(auto, using(crate::proofs::lemmas::SessionLemmas::starts_empty))]
    pub(crate) fn new(alloc: Global) -> Session
        ensures { result ≡ start }
    {
        Session {
            words: Vec::new(alloc).into_boxed_slice(),
            index: None,
        }
    }

    /// Answers a line.
    pub(crate) fn answer(&mut self, alloc: Global, line: &[u8]) -> Answer
        ensures { Step self.old (request_of line.now) result self.new }
    {
        match parse(alloc, line) {
            Ok(Some(command)) => self.perform(alloc, command),
            Ok(None) => Answer::BadCommand,
            Err(_) => Answer::NoMemory,
        }
    }

    fn perform(&mut self, alloc: Global, command: Command) -> Answer
        requires { IsWithinLimits (request command) }
        ensures { Step self.old (Some (request command)) result self.new }
    {
        match command {
            Command::Words(words) => self.replace(words),
            Command::Set(position) => self.change(position, true),
            Command::Clear(position) => self.change(position, false),
            Command::Build(kind) => self.build(alloc, kind),
            Command::Rank(index) => self.rank(index),
            Command::Bits(begin, len) => self.bits(begin, len),
            Command::Rank0(index) => self.rank0(index),
            Command::Select(rank) => self.select(rank),
            Command::Select0(rank) => self.select0(rank),
        }
    }

    fn replace(&mut self, words: Vec<u64>) -> Answer
        requires { vec_len words ≤ 65536 }
        ensures { Step self.old (Some (Words words.items)) result self.new }
    {
        let count = words.len() as u64;
        self.forget_index();
        self.words = words.into_boxed_slice();
        Answer::Accepted(count)
    }

    #[tactic(auto, using(crate::proofs::lemmas::SessionLemmas::count_of_bits))]
    fn change(&mut self, position: u64, value: bool) -> Answer
        ensures answer { result ≡ changed_answer self.old position }
        ensures state { self.new ≡ with_bit self.old position value }
    {
        if position >= 64 * self.words.len() as u64 {
            return Answer::Absent;
        }
        set_bit_to(self.words.as_mut_slice(), position as usize, value);
        self.index = None; // the index counts the bits as they were
        Answer::Accepted(position)
    }

    fn build(&mut self, alloc: Global, kind: Kind) -> Answer
        ensures { Step self.old (Some (Build kind)) result self.new }
    {
        self.forget_index();
        match Index::build(alloc, kind, &self.words) {
            Ok((index, total)) => {
                self.index = Some(index);
                Answer::Ones(total as u64)
            }
            Err(_) => Answer::NoMemory,
        }
    }

    /// The vector as it was, and nothing built.
    fn forget_index(&mut self)
        ensures { self.new ≡ record { bits = self.old.bits; built = None } }
    {
        self.index = None;
    }

    #[tactic(auto, using(crate::proofs::lemmas::SessionLemmas::count_of_bits))]
    fn rank(&self, position: u64) -> Answer
        ensures { Step self.now (Some (Rank position)) result self.now }
    {
        match &self.index {
            None => Answer::NotBuilt,
            Some(index) => match index.try_rank(position as usize) {
                Some(count) => Answer::Number(count as u64),
                None => Answer::Absent,
            },
        }
    }

    #[tactic(auto, using(crate::proofs::lemmas::SessionLemmas::count_of_bits))]
    fn bits(&self, begin: u64, len: u8) -> Answer
        requires { len ≤ 63 }
        ensures { Step self.now (Some (Bits begin len)) result self.now }
    {
        match try_get_bits(self.words.as_slice(), begin as usize, len) {
            Some(number) => Answer::Number(number),
            None => Answer::Absent,
        }
    }

    #[tactic(auto, using(crate::proofs::lemmas::SessionLemmas::count_of_bits))]
    fn rank0(&self, position: u64) -> Answer
        ensures { Step self.now (Some (Rank0 position)) result self.now }
    {
        match &self.index {
            None => Answer::NotBuilt,
            Some(index) => match index.try_rank0(position as usize) {
                Some(zeros) => Answer::Number(zeros as u64),
                None => Answer::Absent,
            },
        }
    }

    fn select(&self, rank: u64) -> Answer
        ensures { Step self.now (Some (Select rank)) result self.now }
    {
        match &self.index {
            None => Answer::NotBuilt,
            Some(index) => index.select(rank as usize),
        }
    }

    fn select0(&self, rank: u64) -> Answer
        ensures { Step self.now (Some (Select0 rank)) result self.now }
    {
        match &self.index {
            None => Answer::NotBuilt,
            Some(index) => index.select0(rank as usize),
        }
    }
}

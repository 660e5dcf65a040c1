//! Rows, which are printed as they come, and the clock that times them.
use std::alloc::Global;
use std::time::CpuClock;

/// What a row is called, and what answers it.
#[derive(Clone, Copy)]
pub(crate) struct Label<'a>(pub(crate) &'a str, pub(crate) &'a str);

/// A batch of calls that is timed.
pub(crate) trait Batch {
    /// Makes the calls, and answers a sum of their answers. Not inlined, so that nothing but the calls is timed.
    fn run(&self) -> usize;
}

/// Adds up the answers of a call for each query, or what is said of each answer.
macro_rules! sum {
    ($asked:expr, $it:ident => $call:expr) => {
        sum!($asked, $it => $call, answer => answer as usize)
    };
    ($asked:expr, $it:ident => $call:expr, $answer:ident => $number:expr) => {{
        let mut sum = 0usize;
        for $it in $asked {
            if let Some($answer) = $call {
                sum = sum.wrapping_add($number);
            }
        }
        sum
    }};
}

/// The last answer, where each call waits for the one before.
macro_rules! chain {
    ($asked:expr, $it:ident => $call:expr) => {{
        // Nothing is chained by a zero that the compiler knows.
        let zero = $asked.len() >> 63;
        let mut last = 0usize;
        for it in $asked {
            let $it = *it ^ (last & zero);
            if let Some(answer) = $call {
                last = answer;
            }
        }
        last
    }};
}

/// Times what answers a sum, as often as there are rounds, and adds the row of the least time.
macro_rules! least {
    ($bench:expr, $label:expr, $calls:expr, $run:expr) => {{
        let mut least = u64::MAX;
        let mut check = 0;
        for _ in 0..$bench.rounds() {
            let begun = $bench.used();
            check = $run;
            least = least.min($bench.used().saturating_sub(begun));
        }
        $bench.add_time($label, least, $calls, check);
    }};
}

pub(crate) use chain;
pub(crate) use least;
pub(crate) use sum;

/// What rows are printed to and timed by.
#[derive(Clone, Copy)]
pub(crate) struct Bench<'a> {
    rt: &'a HostRuntime,
    of: &'a str,
    rounds: u32,
    lost: bool,
}

impl<'a> Bench<'a> {
    /// Rows of bit vectors or keys of the given name, of `rounds` rounds each.
    pub(crate) fn new(rt: &'a HostRuntime, of: &'a str, rounds: u32) -> Bench<'a> {
        Bench {
            rt,
            of,
            rounds,
            lost: false,
        }
    }

    /// Whether a row or a time was lost.
    pub(crate) fn lost(&self) -> bool {
        self.lost
    }

    /// Where memory comes from.
    pub(crate) fn alloc(&self) -> Global {
        self.rt.alloc()
    }

    /// The nanoseconds of the processor that the thread has used.
    pub(crate) fn used(&mut self) -> u64 {
        match self.rt.thread_cpu_time() {
            Ok(time) => time.as_nanos().min(u64::MAX as u128) as u64,
            Err(_) => {
                self.lost = true;
                0
            }
        }
    }

    /// Prints a row: a total for a number of items, in a unit, and a sum of the answers.
    fn add(&mut self, label: Label<'a>, (total, many, unit): (u64, usize, &str), check: usize) {
        let thousandths = total.saturating_mul(1000) / many.max(1) as u64;
        let (whole, part) = (thousandths / 1000, thousandths % 1000);
        let (Label(name, by), of) = (label, self.of);
        let printed = println!(self.rt; "{name},{by},{of},{whole}.{part:03},{unit},{check}");
        self.lost |= printed.is_err();
    }

    /// Adds the row of what took the given time for the given number of items, with a sum of the answers.
    pub(crate) fn add_time(&mut self, label: Label<'a>, nanos: u64, many: usize, check: usize) {
        self.add(label, (nanos, many, "ns"), check);
    }

    /// Adds the row of what began at a time and has made the given number of items.
    pub(crate) fn add_since(&mut self, begun: u64, label: Label<'a>, items: usize) {
        let took = self.used().saturating_sub(begun);
        self.add_time(label, took, items, items);
    }

    /// Adds the row of how many bits for each item the given number of bytes are.
    pub(crate) fn add_space(&mut self, label: Label<'a>, bytes: usize, items: usize) {
        self.add(
            label,
            ((bytes as u64).saturating_mul(8), items, "bits"),
            bytes,
        );
    }

    /// Times a batch of calls, and adds its row: the least of the rounds.
    pub(crate) fn least<B: Batch>(&mut self, label: Label<'a>, calls: usize, batch: &B) {
        least!(self, label, calls, batch.run());
    }

    /// How often a batch is timed.
    pub(crate) fn rounds(&self) -> u32 {
        self.rounds
    }
}

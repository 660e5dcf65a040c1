//! Samples that lie beside right tables and may be stale: built in your own memory, and queried.
ghost use Rattle.std.specs.Prelude.{◌≡◌, true};
ghost use Rattle.bitm.specs.Count.{IsSelect};
ghost use Rattle.bitm.specs.Tables.{HasTables, bits_in};
ghost use Rattle.bitm_view.specs.Answers.{IsSelected};
ghost use Rattle.bitm_view.specs.Samples.{HasSampleRoom};

use bitm_view::{Answer, SamplesView, TablesView};

/// The position of the 1 bit with `rank` 1 bits before it, from samples of whatever words: they never change it.
pub fn select(borrowed: &TablesView<'_>, samples: &SamplesView<'_>, rank: usize) -> Option<usize>
    requires { HasTables borrowed.now }
    ensures { IsSelect (bits_in borrowed.now) true rank result }
{
    match borrowed.sampled_select::<1>(samples, rank) {
        Answer::Found(position) => Some(position),
        Answer::Absent => None,
        // No right tables are called wrong.
        Answer::Wrong => unreachable!(),
    }
}

/// Makes samples of ones, one for each 2^`log2`, and answers one selection by them: `Wrong` only where there is
/// no room for them.
pub fn sample_and_select(
    borrowed: &TablesView<'_>,
    log2: u8,
    numbers: &mut [u32],
    starts: &mut [usize],
    rank: usize,
) -> Answer<usize>
    requires { HasTables borrowed.now }
    ensures { HasSampleRoom borrowed.now log2 numbers.old starts.old
        → IsSelected (bits_in borrowed.now) true rank result }
{
    let Some(used) = borrowed.build_samples::<1>(log2, &mut *numbers, &mut *starts) else {
        return Answer::Wrong;
    };
    let samples = SamplesView {
        samples: &numbers[..used],
        starts: &*starts,
        log2,
    };
    borrowed.sampled_select::<1>(&samples, rank)
}

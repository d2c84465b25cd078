// The histogram of timings.
#![tactic(auto)]

ghost use Rattle.std.specs.Prelude.{◌≡◌, ◌≤◌, length};
ghost use Rattle.refusals.specs.RefusedCalls.{answer_by};
ghost use Rattle.histogram.specs.Histogram.{bin_of, counts_of, counting, counts_given, counts_after, sum_after, sum_of};

use refusals::Refusal;

// A histogram: 256 counts, and the number of timings.
#[derive(Clone, Copy, Debug)]
pub struct Histogram {
    pub counts: [u32; 256],
    pub timings: usize,
}

// The last count is of all timings from here up, in nanoseconds.
const LAST_COUNT_FROM: u32 = 25_500;

// The count that a timing belongs to. What is divided is small: that is less work than to divide first and to test the result.
fn bin(timing: u32) -> usize
    ensures { result ≡ bin_of timing }
{
    (timing.min(LAST_COUNT_FROM) / 100) as usize
}

// The counts of the timings.
fn counts_of(timings: &[u32]) -> [u32; 256]
    requires { length timings.now ≤ 65536 }
    ensures { result ≡ counts_of timings.now }
{
    let mut counts = [0u32; 256];
    for timing in timings {
        counts[bin(*timing)] += 1;
    }
    counts
}

// Histogram: how many timings are 0 to 99 ns, 100 to 199 ns, and so on; the last count is of all from 25,500 ns up.
#[tactic(auto, using(flux_timings::proofs::Judging::judged_refused, flux_timings::proofs::Judging::judged_good, flux_timings::proofs::Judging::judged_few, crate::proofs::Counts::refused_counts, crate::proofs::Counts::refused_sum, crate::proofs::Counts::given_counts, crate::proofs::Counts::given_sum))]
pub fn histogram_of(timings: &[u32]) -> Result<Histogram, Refusal>
    ensures answer { answer_by (λ h. h.timings) result ≡ counting timings.now }
    ensures counts { counts_given result ≡ counts_after (counting timings.now) timings.now }
    ensures sum { sum_of (counts_given result) ≡ sum_after (counting timings.now) timings.now }
{
    flux_timings::judge(timings)?;
    Ok(Histogram {
        counts: counts_of(timings),
        timings: timings.len(),
    })
}

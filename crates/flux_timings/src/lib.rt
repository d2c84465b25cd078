// Flux timings: the range of each, and the first of a list that is outside it.
#![tactic(auto)]

ghost use Rattle.std.specs.Prelude.{◌≡◌, true, length};
ghost use Rattle.refusals.specs.RefusedCalls.{answer_of};
ghost use Rattle.refusals.specs.RefusedCalls.Answer.{gives};
ghost use Rattle.flux_timings.specs.Timings.{in_range, first_out, timings_judged};

use refusals::Refusal;

// The shortest and the longest timing, in nanoseconds, and the most timings of one call.
pub const SHORTEST_TIMING: u32 = 1;

pub const LONGEST_TIMING: u32 = 10_000_000;

pub const MOST_TIMINGS: usize = 65_536;

// Judges a list of timings: it is refused where there are none, where there are too many, and where one is outside its range.
#[tactic(auto, unfolding(crate::specs::Timings::timings_judged), using(crate::proofs::FirstOut::out_within))]
pub fn judge(timings: &[u32]) -> Result<(), Refusal>
    ensures { answer_of result ≡ timings_judged timings.now (gives tt) }
{
    let given = timings.len();
    if given == 0 {
        return Err(Refusal::NoTimings);
    }
    if MOST_TIMINGS < given {
        return Err(Refusal::TooManyTimings(given));
    }
    let first = first_out(timings);
    if first < given {
        return Err(Refusal::TimingOutOfRange(first));
    }
    Ok(())
}

// The index of the first timing outside its range; their number where there is none.
pub fn first_out(timings: &[u32]) -> usize
    ensures { result ≡ first_out timings.now }
{
    if all_in_range(timings) {
        return timings.len();
    }
    search_out(timings)
}

// Whether a timing is in its range.
#[tactic(auto, unfolding(crate::specs::Timings::in_range))]
pub fn timing_in_range(timing: u32) -> bool
    ensures { result ≡ in_range timing }
{
    (SHORTEST_TIMING <= timing) & (timing <= LONGEST_TIMING)
}

// Whether every timing is in its range. The loop goes on to the end whatever it finds, so that the compiler can test several timings
// at once.
#[tactic(auto, using(crate::proofs::FirstOut::out_end))]
fn all_in_range(timings: &[u32]) -> bool
    ensures { result ≡ true → first_out timings.now ≡ length timings.now }
{
    let mut all = true;
    for timing in timings {
        all &= timing_in_range(*timing);
    }
    all
}

// As first_out, one timing after another.
#[tactic(auto, using(crate::proofs::FirstOut::out_here, crate::proofs::FirstOut::out_later, crate::proofs::FirstOut::out_end))]
fn search_out(timings: &[u32]) -> usize
    ensures { result ≡ first_out timings.now }
{
    for (i, timing) in timings.iter().enumerate() {
        if !timing_in_range(*timing) {
            return i;
        }
    }
    timings.len()
}

// A revolution's values, in portions that are cut between any two bytes.
//
// Nothing may be written before a portion is judged, so it is passed over twice: to count its timings and to find one out of range, and then
// to store them.
#![tactic(auto)]

ghost use Rattle.std.specs.Prelude.{◌≡◌, ◌≤◌, length};
ghost use Rattle.refusals.specs.RefusedCalls.{answer_of};
ghost use Rattle.revolution_portions.specs.Portions.{fresh_reader, usable_reader, portion_answer, portion_reader, portion_list, AllTimings};

use refusals::Refusal;
use revolution_values::Unfinished;

// Where the reading of a revolution's values stands (rule 12.16): the timing that has not ended, and how many have.
#[derive(Clone, Copy, Debug)]
pub struct RevolutionReader {
    pub unfinished: Unfinished,
    pub timings: u32,
}

impl RevolutionReader {
    // Before the first byte of a revolution's values.
    pub fn new() -> Self
        ensures { result ≡ fresh_reader }
    {
        RevolutionReader {
            unfinished: Unfinished {
                held: None,
                zeros: 0,
            },
            timings: 0,
        }
    }

    // A fresh state in the place of one that calls cannot leave (rule 12.19).
    #[tactic(auto, unfolding(crate::specs::Portions::usable_reader, crate::specs::Portions::is_left_by_calls))]
    pub fn usable(self) -> Self
        ensures is { result ≡ usable_reader self }
        ensures few_zeros { result.unfinished.zeros ≤ 7 }
        ensures few_timings { result.timings ≤ 65536 }
    {
        if revolution_values::MOST_ZEROS < self.unfinished.zeros {
            return RevolutionReader::new();
        }
        if flux_timings::MOST_TIMINGS < self.timings as usize {
            return RevolutionReader::new();
        }
        self
    }

    // A portion more of the values: the timings that end in it, to the front of a list (rule 9.15). Beside a refusal the state is kept.
    pub fn take(&mut self, portion: &[u8], timings: &mut [u32]) -> Result<usize, Refusal>
        ensures answer { answer_of result ≡ portion_answer self.old portion.now (length timings.old) }
        ensures state { self.new ≡ portion_reader self.old portion.now (length timings.old) }
        ensures list { timings.new ≡ portion_list self.old portion.now timings.old }
        ensures all { AllTimings self.old portion.now (answer_of result) timings.new }
    {
        let reader = self.usable();
        let before = reader.timings as usize;
        // Only counted and judged: an empty list keeps no timing.
        let seen = revolution_values::pass(reader.unfinished, portion, &mut []);
        let count = seen.count;
        let all = before + count;
        if flux_timings::MOST_TIMINGS < all {
            return Err(Refusal::TooManyTimings(all));
        }
        if let Some(out) = seen.out {
            return Err(Refusal::TimingOutOfRange(before + out));
        }
        if timings.len() < count {
            return Err(Refusal::NoRoom(count));
        }
        revolution_values::pass(reader.unfinished, portion, timings);
        *self = RevolutionReader {
            unfinished: seen.unfinished,
            timings: all as u32,
        };
        Ok(count)
    }
}

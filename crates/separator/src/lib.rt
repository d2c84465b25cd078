// The separator's rule, one timing at a time, on a state that is lent, for the bit window of either density.
#![tactic(auto)]

ghost use Rattle.std.specs.Prelude.{◌≡◌, ℕ, pos, true, false};
ghost use Rattle.std.specs.Int.Signed.{lt_z};
ghost use Rattle.std.proofs.Common.{rules};
ghost use Rattle.refusals.specs.RefusedCalls.Answer.{gives};
ghost use Rattle.flux_timings.specs.Timings.{in_range};
ghost use Rattle.separator.specs.Rule.{double_half_window, single_half_window, IsHalfWindow, usable, halved, taken_answer, offset_given, step_answer_by, step_offset_by, step_residual_by, border_pulses_at_by};

use flux_timings::timing_in_range;
use refusals::Refusal;

// The window that a cell's pulse falls into, by its density. The compiler knows half of it wherever a density is named: it divides by that
// much quicker than by a number that it does not know.
pub trait BitWindow {
    ghost HALF: { ℕ };

    // How many nanoseconds half a window has.
    const HALF: u32;

    // How many border pulses a pulse with this offset is: 1 where it lies near the border of its window, and else 0.
    fn border_pulses(offset: i32) -> u32
        ensures { result ≡ border_pulses_at_by HALF offset };

    ghost is_half: { IsHalfWindow HALF };
}

// Double density, MFM.
#[derive(Clone, Copy, Debug)]
pub struct DoubleDensity;

// Single density, FM.
#[derive(Clone, Copy, Debug)]
pub struct SingleDensity;

impl BitWindow for DoubleDensity {
    ghost HALF = { double_half_window };

    const HALF: u32 = 1000;

    #[tactic(auto, unfolding(crate::specs::Rule::is_border_by, crate::specs::Rule::border_pulses_at_by))]
    fn border_pulses(offset: i32) -> u32 {
        // From 902 of the 1,000 ns to a border on, at either side.
        u32::from(offset <= -902 || 902 <= offset)
    }

    ghost is_half = { Prim.search rules };
}

impl BitWindow for SingleDensity {
    ghost HALF = { single_half_window };

    const HALF: u32 = 2000;

    #[tactic(auto, unfolding(crate::specs::Rule::is_border_by, crate::specs::Rule::border_pulses_at_by))]
    fn border_pulses(offset: i32) -> u32 {
        // From 1,804 of the 2,000 ns to a border on, at either side.
        u32::from(offset <= -1804 || 1804 <= offset)
    }

    ghost is_half = { Prim.search rules };
}

// The separator's state: the residual, in nanoseconds.
#[derive(Clone, Copy, Debug)]
pub struct Separator {
    pub residual: i32,
}

// What a step gives: the number of cells of the timing, and the offset e in nanoseconds.
#[derive(Clone, Copy, Debug)]
pub struct Step {
    pub cells: u32,
    pub offset: i32,
}

// A step by value: what it gives, and the next state.
#[derive(Clone, Copy, Debug)]
pub struct Advanced {
    pub step: Result<Step, Refusal>,
    pub next: Separator,
}

// The most residual that a step leaves, of either density.
const MOST_RESIDUAL: i32 = 999;

impl Separator {
    // A new state: its residual is 0.
    pub fn new() -> Self
        ensures { result.residual ≡ pos 0 }
    {
        Separator { residual: 0 }
    }

    // One timing. Beside a refusal the state stays as it is.
    #[tactic(auto, unfolding(crate::specs::Rule::step_answer_by, crate::specs::Rule::step_offset_by, crate::specs::Rule::step_residual_by))]
    pub fn step<W: BitWindow>(&mut self, timing: u32) -> Result<Step, Refusal>
        ensures answer { taken_answer result ≡ step_answer_by W.HALF self.old.residual timing }
        ensures offset { offset_given result ≡ step_offset_by W.HALF self.old.residual timing }
        ensures state { self.new.residual ≡ step_residual_by W.HALF self.old.residual timing }
    {
        if !timing_in_range(timing) {
            return Err(Refusal::TimingOutOfRange(0));
        }
        self.residual = usable_residual::<W>(self.residual);
        Ok(self.advance::<W>(timing))
    }

    // The same by value (rule 3.8): what the step gives, and the next state, which beside a refusal is the one that came.
    pub fn stepped<W: BitWindow>(self, timing: u32) -> Advanced
        ensures answer { taken_answer result.step ≡ step_answer_by W.HALF self.residual timing }
        ensures offset { offset_given result.step ≡ step_offset_by W.HALF self.residual timing }
        ensures state { result.next.residual ≡ step_residual_by W.HALF self.residual timing }
    {
        let mut next = self;
        let step = next.step::<W>(timing);
        Advanced { step, next }
    }

    // One timing from a residual that a step left: a loop over timings need not ask for that each time. Of another residual nothing is promised.
    pub fn step_on<W: BitWindow>(&mut self, timing: u32) -> Result<Step, Refusal>
        ensures answer { usable W.HALF self.old.residual ≡ self.old.residual → taken_answer result ≡ step_answer_by W.HALF self.old.residual timing }
        ensures offset { usable W.HALF self.old.residual ≡ self.old.residual → offset_given result ≡ step_offset_by W.HALF self.old.residual timing }
        ensures state { usable W.HALF self.old.residual ≡ self.old.residual → self.new.residual ≡ step_residual_by W.HALF self.old.residual timing }
    {
        if !timing_in_range(timing) || MOST_RESIDUAL < self.residual {
            return Err(Refusal::TimingOutOfRange(0));
        }
        Ok(self.advance::<W>(timing))
    }

    // What a timing in range gives, from a residual that a step left; with one above 999 the sum need not fit. It is no Result: one that is
    // handed on as another goes by way of memory, and then a step takes twice the time.
    fn advance<W: BitWindow>(&mut self, timing: u32) -> Step
        requires timed { in_range timing ≡ true }
        requires few { lt_z (pos 999) self.old.residual ≡ false }
        ensures cells { usable W.HALF self.old.residual ≡ self.old.residual → gives result.cells ≡ step_answer_by W.HALF self.old.residual timing }
        ensures offset { usable W.HALF self.old.residual ≡ self.old.residual → result.offset ≡ step_offset_by W.HALF self.old.residual timing }
        ensures state { usable W.HALF self.old.residual ≡ self.old.residual → self.new.residual ≡ step_residual_by W.HALF self.old.residual timing }
    {
        // u of rule 3.3 without the timing's whole windows: a division of u would make each step wait for the one before it.
        let half_window = W::HALF;
        let window = 2 * half_window;
        let part = (timing % window) as i32 + self.residual;
        let whole = timing / window;
        let step = if part < half_window as i32 {
            Step {
                cells: whole,
                offset: part,
            }
        } else {
            Step {
                cells: whole + 1,
                offset: part - window as i32,
            }
        };
        self.residual = half(step.offset);
        step
    }
}

// The residual that is used: 0 in place of one that no step can have left.
fn usable_residual<W: BitWindow>(residual: i32) -> i32
    ensures { result ≡ usable W.HALF residual }
{
    let half_window = W::HALF;
    let least = -((half_window / 2) as i32);
    let most = ((half_window - 1) / 2) as i32;
    if least <= residual && residual <= most {
        residual
    } else {
        0
    }
}

// Half of an offset, rounded towards zero: what `/ 2` gives, in three steps where the compiler makes five of that, each of which the next
// timing waits for. A shift rounds down, which below zero is away from it, so there one is added first: the timing 5001
// has the offset -999 and leaves -499, not -500.
fn half(offset: i32) -> i32
    ensures { result ≡ halved offset }
{
    (offset + i32::from(offset < 0)) >> 1
}

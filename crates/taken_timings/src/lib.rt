// Timings taken one by one: each is stepped, and its cells are put into a lent buffer after those so far. So none are kept.
#![tactic(auto)]

ghost use Rattle.std.specs.Prelude.{◌≡◌};
ghost use Rattle.refusals.specs.RefusedCalls.{answer_of};
ghost use Rattle.taken_timings.specs.Timings.{none_taken, count_after, timing_cells, taken_after, taken_cells, timings_answer};

use refusals::Refusal;
use separator::{DoubleDensity, Separator};

// The timings taken so far, where all are in range: their number, their cells in all and the separator's state. After a timing outside its
// range its index stands in place of them, so that the state is a Result<Taken, usize>.
#[derive(Clone, Copy, Debug)]
pub struct Taken {
    pub timings: usize,
    pub cells: usize,
    pub separator: Separator,
}

// Before the first timing.
pub fn none_taken() -> Result<Taken, usize>
    ensures { result ≡ none_taken }
{
    Ok(Taken {
        timings: 0,
        cells: 0,
        separator: Separator::new(),
    })
}

// A timing more: it is stepped, and its cells are put after those so far. After one outside its range no more are.
#[tactic(auto, unfolding(crate::specs::Timings::taken_after, crate::specs::Timings::taken_step, crate::specs::Timings::taken_cells, crate::specs::Timings::step_cells))]
pub fn take_timing(
    taken: Result<Taken, usize>,
    timing: u32,
    cells: &mut [u8],
) -> Result<Taken, usize>
    ensures taken { result ≡ taken_after taken timing }
    ensures buffer { cells.new ≡ taken_cells taken timing cells.old }
{
    let mut taken = taken?;
    let Ok(step) = taken.separator.step::<DoubleDensity>(timing) else {
        return Err(taken.timings);
    };
    put_cells(cells, taken.cells, step.cells);
    taken.timings = add_count(taken.timings, 1);
    taken.cells = add_count(taken.cells, step.cells);
    Ok(taken)
}

// What the timings give in all: the number of their cells, or a refusal.
#[tactic(auto, unfolding(crate::specs::Timings::timings_answer))]
pub fn count_taken(taken: Result<Taken, usize>) -> Result<usize, Refusal>
    ensures { answer_of result ≡ timings_answer taken }
{
    match taken {
        Ok(taken) => {
            if separation::MOST_CELLS < taken.cells {
                return Err(Refusal::TooManyCells(taken.cells));
            }
            Ok(taken.cells)
        }
        Err(index) => Err(Refusal::TimingOutOfRange(index)),
    }
}

// Puts the cells of a timing at cell `at`, where zeros stand: all that changes is a one at the last of them. Past 131,072 cells the file
// is refused, and nothing is put.
#[tactic(auto, unfolding(crate::specs::Timings::timing_cells))]
fn put_cells(cells: &mut [u8], at: usize, count: u32)
    ensures { cells.new ≡ timing_cells at count cells.old }
{
    if count == 0 {
        return;
    }
    let last = add_count(at, count - 1);
    if last < separation::MOST_CELLS {
        cells::put_one(cells, last);
    }
}

// A count and more. A count that no file reaches stays, so that nothing can overflow in any state.
#[tactic(auto, unfolding(crate::specs::Timings::count_after))]
fn add_count(count: usize, more: u32) -> usize
    ensures { result ≡ count_after count more }
{
    if count < 1_000_000_000 {
        count + (more as usize)
    } else {
        count
    }
}

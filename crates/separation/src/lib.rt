// The separator on a whole list of timings: the cells, packed in a lent buffer, and the number of border pulses.
#![tactic(auto)]

ghost use Rattle.std.specs.Prelude.{◌≡◌, cond, ◌+◌, ◌-◌, ◌≤◌, eqb, length};
ghost use Rattle.basis.specs.Lists.{listed};
ghost use Rattle.refusals.specs.RefusedCalls.{answer_of};
ghost use Rattle.cells.specs.CellsAndBytes.{packed_byte, with_one};
ghost use Rattle.flux_timings.specs.Timings.{first_out};
ghost use Rattle.separation.specs.Separation.{border_pulses_of, border_pulses_counted, separation, separated_cells, border_pulses_after, cells_of_by, border_pulses_of_by, separation_by, separated_cells_by};
ghost use Rattle.separation.specs.Demand3.{Demand3};

use refusals::Refusal;
use separator::{BitWindow, DoubleDensity, Separator};

// The most cells that one call gives.
pub const MOST_CELLS: usize = 131_072;

// The bytes that they take.
const MOST_CELL_BYTES: usize = 16_384;

// The whole list of timings, to cells at the front of a buffer; they are counted, and the border pulses too.
#[tactic(auto, using(crate::proofs::Promise::demand3))]
pub fn separate(
    timings: &[u32],
    cells: &mut [u8],
    border_pulses: &mut usize,
) -> Result<usize, Refusal>
    ensures answer { answer_of result ≡ separation timings.now (length cells.old) }
    ensures buffer { cells.new ≡ separated_cells timings.now cells.old }
    ensures border_pulses { border_pulses.new ≡ border_pulses_after (separation timings.now (length cells.old)) (border_pulses_of timings.now) border_pulses.old }
    ensures demand3 { Demand3 timings.now (answer_of result) cells.old cells.new }
{
    separate_in::<DoubleDensity>(timings, cells, border_pulses)
}

// The same for a track of either density. Demand 3 is claimed of double density alone.
#[tactic(auto, using(flux_timings::proofs::Judging::judged_refused, flux_timings::proofs::Judging::judged_few, flux_timings::proofs::Judging::judged_in_range, crate::proofs::Answered::refused_buffer, crate::proofs::Answered::refused_border_pulses))]
pub fn separate_in<W: BitWindow>(
    timings: &[u32],
    cells: &mut [u8],
    border_pulses: &mut usize,
) -> Result<usize, Refusal>
    ensures answer { answer_of result ≡ separation_by W.HALF timings.now (length cells.old) }
    ensures buffer { cells.new ≡ separated_cells_by W.HALF timings.now cells.old }
    ensures border_pulses { border_pulses.new ≡ border_pulses_after (separation_by W.HALF timings.now (length cells.old)) (border_pulses_of_by W.HALF timings.now) border_pulses.old }
{
    flux_timings::judge(timings)?;
    let mut room = [0u8; MOST_CELL_BYTES];
    let counts = fill::<W>(timings, &mut room);
    let count = counts.cells;
    if MOST_CELLS < count {
        return Err(Refusal::TooManyCells(count));
    }
    let needed = (count + 7) / 8;
    if cells.len() < needed {
        return Err(Refusal::NoRoom(needed));
    }
    basis::copy(&room[..needed], cells);
    *border_pulses = counts.border_pulses;
    Ok(count)
}

// The number of border pulses of a list of timings, without its cells (rule 3.23).
#[tactic(auto, using(flux_timings::proofs::Judging::judged_refused, flux_timings::proofs::Judging::judged_few, flux_timings::proofs::Judging::judged_in_range, crate::proofs::Answered::pulses_counted))]
pub fn count_border_pulses(timings: &[u32]) -> Result<usize, Refusal>
    ensures { answer_of result ≡ border_pulses_counted timings.now }
{
    flux_timings::judge(timings)?;
    let mut room = [0u8; MOST_CELL_BYTES];
    let counts = fill::<DoubleDensity>(timings, &mut room);
    Ok(counts.border_pulses)
}

// What timings have in all: cells, and border pulses.
#[derive(Clone, Copy)]
struct Counts {
    cells: usize,
    border_pulses: usize,
}

// One pass over timings that are in range: their cells and border pulses are counted, and the cells put into a room, as far as it reaches. A
// refused call may write nothing, so it is not the caller's.
fn fill<W: BitWindow>(timings: &[u32], room: &mut [u8; MOST_CELL_BYTES]) -> Counts
    requires { (length timings.now ≤ 65536) × (first_out timings.now ≡ length timings.now) }
    ensures cells { result.cells ≡ length (cells_of_by W.HALF timings.now) }
    ensures border_pulses { result.border_pulses ≡ border_pulses_of_by W.HALF timings.now }
    ensures room { length (cells_of_by W.HALF timings.now) ≤ 131072 → room.new ≡ listed (packed_byte (cells_of_by W.HALF timings.now)) 16384 }
{
    cells::clear(room, MOST_CELL_BYTES);
    let mut count: usize = 0;
    let mut border_pulses: usize = 0;
    let mut separator = Separator::new();
    for timing in timings {
        // Each is in range, so that no step refuses.
        if let Ok(step) = separator.step_on::<W>(*timing) {
            let more = step.cells as usize;
            put_cells(room, count, more);
            count += more;
            border_pulses += W::border_pulses(step.offset) as usize;
        }
    }
    Counts {
        cells: count,
        border_pulses: border_pulses,
    }
}

// Puts the cells of a timing at cell `at`, where zeros stand: all that changes is a one at the last of them.
fn put_cells(cells: &mut [u8], at: usize, count: usize)
    requires { at + count ≤ 0x1_0000_0000 }
    ensures { cells.new ≡ cond (eqb count 0) cells.old (with_one cells.old (at + (count - 1))) }
{
    if 0 < count {
        cells::put_one(cells, at + (count - 1));
    }
}

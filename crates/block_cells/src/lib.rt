// From a track block to cells, by way of a revolution's timings, and to the number of their border pulses.
#![tactic(auto)]

ghost use Rattle.std.specs.Prelude.{◌≡◌, length};
ghost use Rattle.refusals.specs.RefusedCalls.{answer_of};
ghost use Rattle.supercard_pro.specs.TrackBlock.{block_answer, block_timings};
ghost use Rattle.block_cells.specs.BlockToCells.{block_separation, block_cells, block_border_pulses, timings_border_pulses, BlockDemand3};

use refusals::Refusal;
use supercard_pro::revolution_timings;

// The cells of one revolution of a block, counted from 0, at the front of a buffer (rule 9.16), and the number of its border pulses: its
// timings, and then the separator's call on them.
pub fn separate_revolution(
    block: &[u8],
    revolutions: u32,
    revolution: u32,
    cells: &mut [u8],
    border_pulses: &mut usize,
) -> Result<usize, Refusal>
    ensures answer { answer_of result ≡ block_separation block.now revolutions revolution (length cells.old) }
    ensures buffer { cells.new ≡ block_cells block.now revolutions revolution cells.old }
    ensures border_pulses { border_pulses.new ≡ block_border_pulses block.now revolutions revolution (length cells.old) border_pulses.old }
    ensures demand3 { BlockDemand3 block.now revolutions revolution (answer_of result) cells.old cells.new }
{
    let mut timings = room_for_timings();
    let count = revolution_timings(block, revolutions, revolution, &mut timings)?;
    separation::separate(&timings[..count], cells, border_pulses)
}

// The timings of one revolution of a block, counted from 0, at the front of a list (rule 9.14), and the number of their border pulses.
pub fn timings_with_border_pulses(
    block: &[u8],
    revolutions: u32,
    revolution: u32,
    timings: &mut [u32],
    border_pulses: &mut usize,
) -> Result<usize, Refusal>
    ensures answer { answer_of result ≡ block_answer block.now revolutions revolution (length timings.old) }
    ensures list { timings.new ≡ block_timings block.now revolutions revolution timings.old }
    ensures border_pulses { border_pulses.new ≡ timings_border_pulses block.now revolutions revolution (length timings.old) border_pulses.old }
{
    let count = revolution_timings(block, revolutions, revolution, timings)?;
    *border_pulses = separation::count_border_pulses(&timings[..count])?;
    Ok(count)
}

// Room for the most timings that a revolution may have.
fn room_for_timings() -> [u32; 65536]
    ensures { 65536 ≡ length result }
{
    [0; 65536]
}

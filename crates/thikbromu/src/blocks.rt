// Track blocks of SuperCard Pro images.
ghost use Rattle.std.specs.Prelude.{◌≡◌, length};
ghost use Rattle.supercard_pro.specs.TrackBlock.{block_answer, block_timings};
ghost use Rattle.revolution_portions.specs.Portions.{portion_answer, portion_reader, portion_list};
ghost use Rattle.block_cells.specs.BlockToCells.{block_separation, block_cells, block_border_pulses, timings_border_pulses, BlockDemand3};
ghost use Rattle.reader_as_number.specs.Numbers.{reader_of_number, number_kept, AllByNumber};
ghost use Rattle.telling.specs.Numbers.{number_in, value_in};

use telling::{told, told_portion};

// The timings of one revolution of a block, counted from 0, to the front of `timings`; `value` is their number, and `border_pulses` the number
// of their border pulses, which is kept beside a refusal. `revolutions` is the number of revolutions in the image's header.
#[unsafe(no_mangle)]
pub extern "C" fn thikbromu_revolution_timings(
    block: &[u8],
    revolutions: u32,
    revolution: u32,
    timings: &mut [u32],
    border_pulses: &mut usize,
    value: &mut usize,
) -> u32
    ensures number { result ≡ number_in (block_answer block.now revolutions revolution (length timings.old)) }
    ensures value { value.new ≡ value_in (block_answer block.now revolutions revolution (length timings.old)) }
    ensures list { timings.new ≡ block_timings block.now revolutions revolution timings.old }
    ensures border_pulses { border_pulses.new ≡ timings_border_pulses block.now revolutions revolution (length timings.old) border_pulses.old }
{
    told(
        block_cells::timings_with_border_pulses(
            block,
            revolutions,
            revolution,
            timings,
            border_pulses,
        ),
        value,
    )
}

// A portion more of a revolution's values: the timings that end in it, to the front of `timings`; `value` is their number. The reader is kept
// as a number in `state`, 0 before the first portion; beside a refusal it stays as it was.
#[unsafe(no_mangle)]
pub extern "C" fn thikbromu_revolution_portion(
    state: &mut u32,
    portion: &[u8],
    timings: &mut [u32],
    value: &mut usize,
) -> u32
    ensures number { result ≡ number_in (portion_answer (reader_of_number state.old) portion.now (length timings.old)) }
    ensures value { value.new ≡ value_in (portion_answer (reader_of_number state.old) portion.now (length timings.old)) }
    ensures state { state.new ≡ number_kept (portion_answer (reader_of_number state.old) portion.now (length timings.old)) state.old (portion_reader (reader_of_number state.old) portion.now (length timings.old)) }
    ensures list { timings.new ≡ portion_list (reader_of_number state.old) portion.now timings.old }
    ensures all { AllByNumber state.old portion.now (portion_answer (reader_of_number state.old) portion.now (length timings.old)) timings.new }
{
    let mut reader = reader_as_number::reader_of_number(*state);
    let answer = reader.take(portion, timings);
    told_portion(answer, reader, state, value)
}

// The cells of one revolution of a block, packed at the front of `cells`: its timings, handed to the separator; `value` is the number of
// cells, and `border_pulses` the number of border pulses, which is kept beside a refusal.
#[unsafe(no_mangle)]
pub extern "C" fn thikbromu_revolution_cells(
    block: &[u8],
    revolutions: u32,
    revolution: u32,
    cells: &mut [u8],
    border_pulses: &mut usize,
    value: &mut usize,
) -> u32
    ensures number { result ≡ number_in (block_separation block.now revolutions revolution (length cells.old)) }
    ensures value { value.new ≡ value_in (block_separation block.now revolutions revolution (length cells.old)) }
    ensures buffer { cells.new ≡ block_cells block.now revolutions revolution cells.old }
    ensures border_pulses { border_pulses.new ≡ block_border_pulses block.now revolutions revolution (length cells.old) border_pulses.old }
    ensures demand3 { BlockDemand3 block.now revolutions revolution (block_separation block.now revolutions revolution (length cells.old)) cells.old cells.new }
{
    told(
        block_cells::separate_revolution(block, revolutions, revolution, cells, border_pulses),
        value,
    )
}

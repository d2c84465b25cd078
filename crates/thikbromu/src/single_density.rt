// Tracks of single density (FM): each routine takes, gives and refuses what its namesake without `fm` does. Demand 3 is not claimed.
// The pairs are names of the C interface; what a pair does is one function over the density.
ghost use Rattle.std.specs.Prelude.{◌≡◌, ◌/◌, length};
ghost use Rattle.layouts.specs.Layouts.{single_density};
ghost use Rattle.separator.specs.Rule.{single_half_window, step_answer_by, step_offset_by, step_residual_by};
ghost use Rattle.separation.specs.Separation.{border_pulses_of_by, separation_by, separated_cells_by, border_pulses_after};
ghost use Rattle.sectors.specs.Calls.{index_answer, data_answer, data_after};
ghost use Rattle.findings.specs.Calls.{findings_answer, list_after, numbers_after};
ghost use Rattle.telling.specs.Numbers.{number_in, value_in, offset_stored, value_read, check_read};
ghost use Rattle.thikbromu.specs.Lent.{record_lent};

use crate::{findings_told, sector_told, step_told, track_of};
use findings::Finding;
use layouts::Density;
use separator::SingleDensity;
use telling::{told, told_read};

// One step of the separator, on a state that the caller lends: its residual is advanced in its place, and kept beside a refusal. `value` is
// the number of cells, and `offset` the offset e, which is kept beside a refusal too.
#[unsafe(no_mangle)]
pub extern "C" fn thikbromu_fm_step(
    residual: &mut i32,
    timing: u32,
    offset: &mut i32,
    value: &mut usize,
) -> u32
    ensures number { result ≡ number_in (step_answer_by single_half_window residual.old timing) }
    ensures value { value.new ≡ value_in (step_answer_by single_half_window residual.old timing) }
    ensures offset { offset.new ≡ offset_stored (step_answer_by single_half_window residual.old timing) (step_offset_by single_half_window residual.old timing) offset.old }
    ensures residual { residual.new ≡ step_residual_by single_half_window residual.old timing }
{
    step_told::<SingleDensity>(residual, timing, offset, value)
}

// The separator on a list of timings; `value` is the number of cells, packed at the front of `cells`, and `border_pulses` the number of
// border pulses, which is kept beside a refusal.
#[unsafe(no_mangle)]
pub extern "C" fn thikbromu_fm_separate(
    timings: &[u32],
    cells: &mut [u8],
    border_pulses: &mut usize,
    value: &mut usize,
) -> u32
    ensures number { result ≡ number_in (separation_by single_half_window timings.now (length cells.old)) }
    ensures value { value.new ≡ value_in (separation_by single_half_window timings.now (length cells.old)) }
    ensures buffer { cells.new ≡ separated_cells_by single_half_window timings.now cells.old }
    ensures border_pulses { border_pulses.new ≡ border_pulses_after (separation_by single_half_window timings.now (length cells.old)) (border_pulses_of_by single_half_window timings.now) border_pulses.old }
{
    told(
        separation::separate_in::<SingleDensity>(timings, cells, border_pulses),
        value,
    )
}

// As thikbromu_sector, on a track of single density.
#[unsafe(no_mangle)]
pub extern "C" fn thikbromu_fm_sector(
    bytes: &[u8],
    n: usize,
    track: u32,
    side: u32,
    index: usize,
    numbers: &mut [u32],
    value: &mut usize,
) -> u32
    ensures number { result ≡ number_in (index_answer single_density bytes.now n track side index) }
    ensures value { value.new ≡ value_in (index_answer single_density bytes.now n track side index) }
    ensures numbers { numbers.new ≡ record_lent single_density bytes.now n track side index numbers.old }
{
    let track = track_of(bytes, n, track, side);
    sector_told(Density::Single, track, index, numbers, value)
}

// As thikbromu_read_out, on a track of single density.
#[unsafe(no_mangle)]
pub extern "C" fn thikbromu_fm_read_out(
    bytes: &[u8],
    n: usize,
    track: u32,
    side: u32,
    index: usize,
    buffer: &mut [u8],
    good: &mut u32,
    value: &mut usize,
) -> u32
    ensures number { result ≡ number_in (data_answer single_density bytes.now n track side index (length buffer.old)) }
    ensures value { value.new ≡ value_read (data_answer single_density bytes.now n track side index (length buffer.old)) }
    ensures good { good.new ≡ check_read (data_answer single_density bytes.now n track side index (length buffer.old)) good.old }
    ensures buffer { buffer.new ≡ data_after single_density bytes.now n track side index buffer.old }
{
    let track = track_of(bytes, n, track, side);
    told_read(track.read_out(Density::Single, index, buffer), good, value)
}

// As thikbromu_findings, on a track of single density.
#[unsafe(no_mangle)]
pub extern "C" fn thikbromu_fm_findings(
    bytes: &[u8],
    n: usize,
    track: u32,
    side: u32,
    list: &mut [u32],
    value: &mut usize,
) -> u32
    ensures number { result ≡ number_in (findings_answer single_density bytes.now n track side (length list.old / 4)) }
    ensures value { value.new ≡ value_in (findings_answer single_density bytes.now n track side (length list.old / 4)) }
    ensures list { list.new ≡ numbers_after single_density bytes.now n track side list.old }
{
    let track = track_of(bytes, n, track, side);
    findings_told(Density::Single, track, list, value)
}

// As thikbromu_finding_records, on a track of single density.
#[unsafe(no_mangle)]
pub extern "C" fn thikbromu_fm_finding_records(
    bytes: &[u8],
    n: usize,
    track: u32,
    side: u32,
    list: &mut [Finding],
    value: &mut usize,
) -> u32
    ensures number { result ≡ number_in (findings_answer single_density bytes.now n track side (length list.old)) }
    ensures value { value.new ≡ value_in (findings_answer single_density bytes.now n track side (length list.old)) }
    ensures list { list.new ≡ list_after single_density bytes.now n track side list.old }
{
    let track = track_of(bytes, n, track, side);
    told(findings::findings(Density::Single, track, list), value)
}

// The library for C and Rust: each routine on numbers and slices, which pass as an address and a length.
//
// A routine of which some calls are refused returns a number: 0 where the call is accepted, else the number of the refusal (section 8 of
// the specification). What the call gives, or what is given beside the refusal, is stored at `value`; beside a refusal nothing else is
// written, but that a record, a table of counts or the finding of two reads is set to zeros (rule 8.32).
//
// What the boundary asks of a caller in another language: each address is valid for its length, lent memory does not overlap what else is
// passed, and a bool is 0 or 1. The routines ask nothing of the values.
#![tactic(auto)]

mod blocks;
mod conversion;
mod disks;
mod files;
mod images;
mod reads;
mod scp_images;
mod single_density;
mod writing;

ghost use Rattle.std.specs.Prelude.{◌≡◌, cond, ◌/◌, length};
ghost use Rattle.cells.specs.CellsAndBytes.{cell, word_at, least_place, cleared, with_one};
ghost use Rattle.crc.specs.CheckWord.{check_word_from, check_word};
ghost use Rattle.mfm.specs.Calls.{coding_answer, decoding_answer, encoded_after, decoded_after};
ghost use Rattle.separator.specs.Rule.{step_answer, step_offset, step_residual, step_answer_by, step_offset_by, step_residual_by};
ghost use Rattle.separation.specs.Separation.{border_pulses_of, separation, separated_cells, border_pulses_after};
ghost use Rattle.separation.specs.Demand3.{Demand3};
ghost use Rattle.histogram.specs.Histogram.{counting};
ghost use Rattle.layouts.specs.Layouts.{double_density, layout_of};
ghost use Rattle.sectors.specs.Calls.{index_answer, data_answer, data_after};
ghost use Rattle.findings.specs.Calls.{findings_answer, list_after, numbers_after};
ghost use Rattle.telling.specs.Numbers.{number_in, value_in, offset_stored, value_read, check_read};
ghost use Rattle.thikbromu.specs.Lent.{counts_lent, record_lent};

pub use blocks::{
    thikbromu_revolution_cells, thikbromu_revolution_portion, thikbromu_revolution_timings,
};
use cells::Cells;
pub use conversion::thikbromu_convert_file;
pub use disks::thikbromu_disk_page;
pub use files::{thikbromu_file_cells, thikbromu_file_listing, thikbromu_listing};
use findings::Finding;
pub use images::thikbromu_sector_image;
use layouts::Density;
pub use reads::{thikbromu_compare_reads, thikbromu_good_read};
pub use scp_images::{
    thikbromu_image_check, thikbromu_image_entries, thikbromu_image_header, thikbromu_image_sum,
};
use sectors::Track;
use separator::{BitWindow, DoubleDensity, Separator};
pub use single_density::{
    thikbromu_fm_finding_records, thikbromu_fm_findings, thikbromu_fm_read_out,
    thikbromu_fm_sector, thikbromu_fm_separate, thikbromu_fm_step,
};
use telling::{sector_numbers, told, told_read, told_step};
pub use writing::thikbromu_write_track;

// Cell p of a track of n cells, counted on past n.
#[unsafe(no_mangle)]
pub extern "C" fn thikbromu_cell(bytes: &[u8], n: usize, p: usize) -> u64
    ensures { result ≡ cell bytes.now n p }
{
    Cells { bytes, count: n }.cell(p)
}

// The word of k cells from p; a k above 64 counts as 64.
#[unsafe(no_mangle)]
pub extern "C" fn thikbromu_word(bytes: &[u8], n: usize, p: usize, k: usize) -> u64
    ensures { result ≡ word_at bytes.now n p k }
{
    Cells { bytes, count: n }.word(p, k)
}

// The least place from `from` and before `to`, counted on past n, at which the word x of k cells stands. Where there is
// none, the greater of the two.
#[unsafe(no_mangle)]
pub extern "C" fn thikbromu_find_word(
    bytes: &[u8],
    n: usize,
    x: u64,
    k: usize,
    from: usize,
    to: usize,
) -> usize
    ensures { result ≡ least_place bytes.now n k x from to }
{
    Cells { bytes, count: n }.find_word(x, k, from, to)
}

// Sets the first k bytes, or all where there are fewer, to 0.
#[unsafe(no_mangle)]
pub extern "C" fn thikbromu_clear(bytes: &mut [u8], k: usize)
    ensures { bytes.new ≡ cleared k bytes.old }
{
    cells::clear(bytes, k);
}

// Puts a one at cell p, where the bytes have such a cell.
#[unsafe(no_mangle)]
pub extern "C" fn thikbromu_put_one(bytes: &mut [u8], p: usize)
    ensures { bytes.new ≡ with_one bytes.old p }
{
    cells::put_one(bytes, p);
}

// The check word of bytes.
#[unsafe(no_mangle)]
pub extern "C" fn thikbromu_check_word(bytes: &[u8]) -> u16
    ensures { result ≡ check_word bytes.now }
{
    crc::check_word(bytes)
}

// The check word after bytes, from a word that earlier bytes left.
#[unsafe(no_mangle)]
pub extern "C" fn thikbromu_check_word_from(word: u16, bytes: &[u8]) -> u16
    ensures { result ≡ check_word_from word bytes.now }
{
    crc::check_word_from(word, bytes)
}

// Coding; `value` is the bytes of cells written.
#[unsafe(no_mangle)]
pub extern "C" fn thikbromu_encode(
    bytes: &[u8],
    before: bool,
    cells: &mut [u8],
    value: &mut usize,
) -> u32
    ensures number { result ≡ number_in (coding_answer bytes.now cells.old) }
    ensures value { value.new ≡ value_in (coding_answer bytes.now cells.old) }
    ensures buffer { cells.new ≡ encoded_after (cond before 1 0) bytes.now cells.old }
{
    told(mfm::encode(bytes, before, cells), value)
}

// Decoding; `value` is the bytes written.
#[unsafe(no_mangle)]
pub extern "C" fn thikbromu_decode(cells: &[u8], bytes: &mut [u8], value: &mut usize) -> u32
    ensures number { result ≡ number_in (decoding_answer cells.now bytes.old) }
    ensures value { value.new ≡ value_in (decoding_answer cells.now bytes.old) }
    ensures buffer { bytes.new ≡ decoded_after cells.now bytes.old }
{
    told(mfm::decode(cells, bytes), value)
}

// One step of the separator, on a state that the caller lends: its residual is advanced in its place, and kept beside a refusal. `value` is
// the number of cells, and `offset` the offset e, which is kept beside a refusal too.
#[unsafe(no_mangle)]
pub extern "C" fn thikbromu_step(
    residual: &mut i32,
    timing: u32,
    offset: &mut i32,
    value: &mut usize,
) -> u32
    ensures number { result ≡ number_in (step_answer residual.old timing) }
    ensures value { value.new ≡ value_in (step_answer residual.old timing) }
    ensures offset { offset.new ≡ offset_stored (step_answer residual.old timing) (step_offset residual.old timing) offset.old }
    ensures residual { residual.new ≡ step_residual residual.old timing }
{
    step_told::<DoubleDensity>(residual, timing, offset, value)
}

// The separator on a list of timings; `value` is the number of cells, packed at the front of `cells`, and `border_pulses` the number of
// border pulses, which is kept beside a refusal.
#[unsafe(no_mangle)]
pub extern "C" fn thikbromu_separate(
    timings: &[u32],
    cells: &mut [u8],
    border_pulses: &mut usize,
    value: &mut usize,
) -> u32
    ensures number { result ≡ number_in (separation timings.now (length cells.old)) }
    ensures value { value.new ≡ value_in (separation timings.now (length cells.old)) }
    ensures buffer { cells.new ≡ separated_cells timings.now cells.old }
    ensures border_pulses { border_pulses.new ≡ border_pulses_after (separation timings.now (length cells.old)) (border_pulses_of timings.now) border_pulses.old }
    ensures demand3 { Demand3 timings.now (separation timings.now (length cells.old)) cells.old cells.new }
{
    told(separation::separate(timings, cells, border_pulses), value)
}

// The histogram of timings: 256 counts to the front of `counts`, or as many as it has room for; `value` is the number of
// timings. The counts are all zeros beside a refusal.
#[unsafe(no_mangle)]
pub extern "C" fn thikbromu_histogram(timings: &[u32], counts: &mut [u32], value: &mut usize) -> u32
    ensures number { result ≡ number_in (counting timings.now) }
    ensures value { value.new ≡ value_in (counting timings.now) }
    ensures counts { counts.new ≡ counts_lent timings.now counts.old }
{
    match histogram::histogram_of(timings) {
        Ok(histogram) => {
            basis::copy(&histogram.counts, counts);
            told(Ok(histogram.timings), value)
        }
        Err(refusal) => {
            basis::copy(&[0; 256], counts);
            told(Err(refusal), value)
        }
    }
}

// Sector `index` of a track, from 0: its record as thirteen numbers at the front of `numbers` (rule 6.16: place, mark, the ID's track, side,
// number and size code, whether the ID check is good, data place, data mark, data length, whether the data check is good, data end, density;
// good is 1 and bad 0), all zeros beside a refusal; `value` is the number of sectors. `track` and `side` are the drive's.
#[unsafe(no_mangle)]
pub extern "C" fn thikbromu_sector(
    bytes: &[u8],
    n: usize,
    track: u32,
    side: u32,
    index: usize,
    numbers: &mut [u32],
    value: &mut usize,
) -> u32
    ensures number { result ≡ number_in (index_answer double_density bytes.now n track side index) }
    ensures value { value.new ≡ value_in (index_answer double_density bytes.now n track side index) }
    ensures numbers { numbers.new ≡ record_lent double_density bytes.now n track side index numbers.old }
{
    let track = track_of(bytes, n, track, side);
    sector_told(Density::Double, track, index, numbers, value)
}

// Reads out sector `index` of a track to the front of `buffer`; `value` is the number of bytes, and `good` is 1 where their
// check is good and else 0.
#[unsafe(no_mangle)]
pub extern "C" fn thikbromu_read_out(
    bytes: &[u8],
    n: usize,
    track: u32,
    side: u32,
    index: usize,
    buffer: &mut [u8],
    good: &mut u32,
    value: &mut usize,
) -> u32
    ensures number { result ≡ number_in (data_answer double_density bytes.now n track side index (length buffer.old)) }
    ensures value { value.new ≡ value_read (data_answer double_density bytes.now n track side index (length buffer.old)) }
    ensures good { good.new ≡ check_read (data_answer double_density bytes.now n track side index (length buffer.old)) good.old }
    ensures buffer { buffer.new ≡ data_after double_density bytes.now n track side index buffer.old }
{
    let track = track_of(bytes, n, track, side);
    told_read(track.read_out(Density::Double, index, buffer), good, value)
}

// The findings of a track, at the front of the list: four numbers for each, its kind, level, place and detail; `value` is the number of
// findings. A list has room for a quarter as many findings as it has numbers.
#[unsafe(no_mangle)]
pub extern "C" fn thikbromu_findings(
    bytes: &[u8],
    n: usize,
    track: u32,
    side: u32,
    list: &mut [u32],
    value: &mut usize,
) -> u32
    ensures number { result ≡ number_in (findings_answer double_density bytes.now n track side (length list.old / 4)) }
    ensures value { value.new ≡ value_in (findings_answer double_density bytes.now n track side (length list.old / 4)) }
    ensures list { list.new ≡ numbers_after double_density bytes.now n track side list.old }
{
    let track = track_of(bytes, n, track, side);
    findings_told(Density::Double, track, list, value)
}

// As thikbromu_findings, on a list of records as C lays them out: kind and level take a byte each, place and detail four. A list
// has room for as many findings as it has records.
#[unsafe(no_mangle)]
pub extern "C" fn thikbromu_finding_records(
    bytes: &[u8],
    n: usize,
    track: u32,
    side: u32,
    list: &mut [Finding],
    value: &mut usize,
) -> u32
    ensures number { result ≡ number_in (findings_answer double_density bytes.now n track side (length list.old)) }
    ensures value { value.new ≡ value_in (findings_answer double_density bytes.now n track side (length list.old)) }
    ensures list { list.new ≡ list_after double_density bytes.now n track side list.old }
{
    let track = track_of(bytes, n, track, side);
    told(findings::findings(Density::Double, track, list), value)
}

// A track as C hands it over: n cells, packed in `bytes`, of this track and side of the drive.
fn track_of(bytes: &[u8], n: usize, track: u32, side: u32) -> Track
    ensures { result ≡ record { cells = record { bytes = bytes.entry; count = n }; track = track; side = side } }
{
    let cells = Cells { bytes, count: n };
    Track { cells, track, side }
}

// One step of the separator in either window, told to C.
fn step_told<W: BitWindow>(
    residual: &mut i32,
    timing: u32,
    offset: &mut i32,
    value: &mut usize,
) -> u32
    ensures number { result ≡ number_in (step_answer_by W.HALF residual.old timing) }
    ensures value { value.new ≡ value_in (step_answer_by W.HALF residual.old timing) }
    ensures offset { offset.new ≡ offset_stored (step_answer_by W.HALF residual.old timing) (step_offset_by W.HALF residual.old timing) offset.old }
    ensures residual { residual.new ≡ step_residual_by W.HALF residual.old timing }
{
    let mut separator = Separator {
        residual: *residual,
    };
    let step = separator.step::<W>(timing);
    *residual = separator.residual;
    told_step(step, offset, value)
}

// Sector `index` of a track of either density, told to C.
fn sector_told(
    density: Density,
    track: Track,
    index: usize,
    numbers: &mut [u32],
    value: &mut usize,
) -> u32
    ensures number { result ≡ number_in (index_answer (layout_of density) track.entry.cells.bytes.now track.entry.cells.count track.entry.track track.entry.side index) }
    ensures value { value.new ≡ value_in (index_answer (layout_of density) track.entry.cells.bytes.now track.entry.cells.count track.entry.track track.entry.side index) }
    ensures numbers { numbers.new ≡ record_lent (layout_of density) track.entry.cells.bytes.now track.entry.cells.count track.entry.track track.entry.side index numbers.old }
{
    match track.sector(density, index) {
        Ok(found) => {
            basis::copy(&sector_numbers(found.sector), numbers);
            told(Ok(found.count), value)
        }
        Err(refusal) => {
            basis::copy(&sector_numbers(sector_records::no_sector()), numbers);
            told(Err(refusal), value)
        }
    }
}

// The findings of a track of either density as numbers, told to C.
fn findings_told(density: Density, track: Track, list: &mut [u32], value: &mut usize) -> u32
    ensures number { result ≡ number_in (findings_answer (layout_of density) track.entry.cells.bytes.now track.entry.cells.count track.entry.track track.entry.side (length list.old / 4)) }
    ensures value { value.new ≡ value_in (findings_answer (layout_of density) track.entry.cells.bytes.now track.entry.cells.count track.entry.track track.entry.side (length list.old / 4)) }
    ensures list { list.new ≡ numbers_after (layout_of density) track.entry.cells.bytes.now track.entry.cells.count track.entry.track track.entry.side list.old }
{
    match findings::findings_as_numbers(density, track, list) {
        Ok(found) => told(Ok(found.findings), value),
        Err(refusal) => told(Err(refusal), value),
    }
}

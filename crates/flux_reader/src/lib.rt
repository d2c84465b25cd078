// The reader of an old flux file, a byte at a time. Timings are stepped as they are read, so that none are kept.
#![tactic(auto)]

ghost use Rattle.std.specs.Prelude.{◌≡◌};
ghost use Rattle.flux_reader.specs.Bytes.{after_place_count, after_cell_count, after_flux_count, after_timing, reader_after_byte, cells_after_byte};

use file_reader::{Extended, Number, Place};
use refusals::Refusal;
use taken_timings::Taken;

// Where the reading of an old flux file stands, with what the sections before have brought.
#[derive(Clone, Copy)]
pub enum FluxReader {
    PlaceCount(Number),
    Track,
    Side(u8),
    CellCount(Place, Number),
    FluxCount(Place, Number),
    // How many timings are still to come.
    Timings(Place, u32, Number, Result<Taken, usize>),
    AllTimings(Place, Result<Taken, usize>),
    // 15, where it is judged over the whole file: more bytes may come, and none changes it.
    NotATrackFile,
    // A refusal that is given at once, or too little room.
    Stopped(Refusal),
}

// The most timings that a file's count may say.
const MOST_TIMINGS: u32 = 65_536;

// A byte more of the file.
#[tactic(auto, unfolding(crate::specs::Bytes::reader_after_byte, crate::specs::Bytes::cells_after_byte, crate::specs::Bytes::in_place_count, crate::specs::Bytes::in_cell_count, crate::specs::Bytes::in_flux_count, crate::specs::Bytes::in_timing, crate::specs::Bytes::in_timing_cells))]
pub fn feed_byte(reader: FluxReader, byte: u8, cells: &mut [u8]) -> FluxReader
    ensures reader { result ≡ reader_after_byte reader byte }
    ensures buffer { cells.new ≡ cells_after_byte reader byte cells.old }
{
    match reader {
        FluxReader::PlaceCount(number) => match file_reader::extend(number, byte) {
            Extended::Part(part) => FluxReader::PlaceCount(part),
            Extended::Whole(count) => after_place_count(count),
        },
        FluxReader::Track => FluxReader::Side(byte),
        FluxReader::Side(track) => {
            FluxReader::CellCount(Place { track, side: byte }, Number::Empty)
        }
        FluxReader::CellCount(place, number) => match file_reader::extend(number, byte) {
            Extended::Part(part) => FluxReader::CellCount(place, part),
            Extended::Whole(count) => after_cell_count(place, count),
        },
        FluxReader::FluxCount(place, number) => match file_reader::extend(number, byte) {
            Extended::Part(part) => FluxReader::FluxCount(place, part),
            Extended::Whole(count) => after_flux_count(place, count),
        },
        FluxReader::Timings(place, left, number, taken) => {
            match file_reader::extend(number, byte) {
                Extended::Part(part) => FluxReader::Timings(place, left, part, taken),
                Extended::Whole(timing) => {
                    let next = taken_timings::take_timing(taken, timing, cells);
                    after_timing(place, left, next)
                }
            }
        }
        FluxReader::AllTimings(_, _) => FluxReader::NotATrackFile,
        FluxReader::NotATrackFile => FluxReader::NotATrackFile,
        FluxReader::Stopped(refusal) => FluxReader::Stopped(refusal),
    }
}

// After the place count, which has to be 2.
#[tactic(auto, unfolding(crate::specs::Bytes::after_place_count))]
fn after_place_count(count: u32) -> FluxReader
    ensures { result ≡ after_place_count count }
{
    if count == 2 {
        FluxReader::Track
    } else {
        FluxReader::Stopped(Refusal::NotATrackFile)
    }
}

// After the cell count, which has to be 0: a file with cells needs no conversion.
#[tactic(auto, unfolding(crate::specs::Bytes::after_cell_count))]
fn after_cell_count(place: Place, count: u32) -> FluxReader
    ensures { result ≡ after_cell_count place count }
{
    if count == 0 {
        FluxReader::FluxCount(place, Number::Empty)
    } else {
        FluxReader::Stopped(Refusal::NotATrackFile)
    }
}

// After the flux count.
#[tactic(auto, unfolding(crate::specs::Bytes::after_flux_count))]
fn after_flux_count(place: Place, timings: u32) -> FluxReader
    ensures { result ≡ after_flux_count place timings }
{
    if MOST_TIMINGS < timings {
        return FluxReader::Stopped(Refusal::TooManyTimings(timings as usize));
    }
    if timings == 0 {
        return FluxReader::NotATrackFile;
    }
    FluxReader::Timings(place, timings, Number::Empty, taken_timings::none_taken())
}

// After a timing, with the timings taken, where `left` were to come with it.
#[tactic(auto, unfolding(crate::specs::Bytes::after_timing))]
fn after_timing(place: Place, left: u32, taken: Result<Taken, usize>) -> FluxReader
    ensures { result ≡ after_timing place left taken }
{
    if 1 < left {
        FluxReader::Timings(place, left - 1, Number::Empty, taken)
    } else {
        FluxReader::AllTimings(place, taken)
    }
}

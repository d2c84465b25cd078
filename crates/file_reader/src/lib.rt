// The reader of a track file, a byte at a time.
#![tactic(auto)]

ghost use Rattle.std.specs.Prelude.{◌≡◌, set};
ghost use Rattle.file_reader.specs.Bytes.{number_after, after_place_count, after_cell_count, after_packed_byte, after_flux_count, reader_after_byte, cells_after_byte};

use refusals::Refusal;

// The place section: the drive's track and side.
#[derive(Clone, Copy)]
pub struct Place {
    pub track: u8,
    pub side: u8,
}

// The bytes so far of a number.
#[derive(Clone, Copy)]
pub enum Number {
    Empty,
    One(u8),
    Two(u8, u8),
    Three(u8, u8, u8),
}

// A number with a byte more: still a part of it, or the whole.
#[derive(Clone, Copy)]
pub enum Extended {
    Part(Number),
    Whole(u32),
}

// Where the reading of a track file stands, with what the sections before have brought.
#[derive(Clone, Copy)]
pub enum Reader {
    PlaceCount(Number),
    Track,
    Side(u8),
    CellCount(Place, Number),
    // The count of the cells, and how many of their bytes are read.
    PackedCells(Place, u32, u32),
    FluxCount(Place, u32, Number),
    AllCells(Place, u32),
    // 15, where it is judged over the whole file: more bytes may come, and none changes it.
    NotATrackFile,
    // A refusal that is given at once, or too little room.
    Stopped(Refusal),
}

// The most cells that a file's count may say.
const MOST_CELLS: u32 = 131_072;

// A byte more of the file.
#[tactic(auto, unfolding(crate::specs::Bytes::reader_after_byte, crate::specs::Bytes::cells_after_byte, crate::specs::Bytes::in_place_count, crate::specs::Bytes::in_cell_count, crate::specs::Bytes::in_flux_count))]
pub fn feed_byte(reader: Reader, byte: u8, cells: &mut [u8]) -> Reader
    ensures reader { result ≡ reader_after_byte reader byte }
    ensures buffer { cells.new ≡ cells_after_byte reader byte cells.old }
{
    match reader {
        Reader::PlaceCount(number) => match extend(number, byte) {
            Extended::Part(part) => Reader::PlaceCount(part),
            Extended::Whole(count) => after_place_count(count),
        },
        Reader::Track => Reader::Side(byte),
        Reader::Side(track) => Reader::CellCount(Place { track, side: byte }, Number::Empty),
        Reader::CellCount(place, number) => match extend(number, byte) {
            Extended::Part(part) => Reader::CellCount(place, part),
            Extended::Whole(count) => after_cell_count(place, count),
        },
        Reader::PackedCells(place, count, at) => {
            put_byte(cells, at, byte);
            after_packed_byte(place, count, at)
        }
        Reader::FluxCount(place, cell_count, number) => match extend(number, byte) {
            Extended::Part(part) => Reader::FluxCount(place, cell_count, part),
            Extended::Whole(count) => after_flux_count(place, cell_count, count),
        },
        Reader::AllCells(_, _) => Reader::NotATrackFile,
        Reader::NotATrackFile => Reader::NotATrackFile,
        Reader::Stopped(refusal) => Reader::Stopped(refusal),
    }
}

// After the place count, which has to be 2.
#[tactic(auto, unfolding(crate::specs::Bytes::after_place_count))]
fn after_place_count(count: u32) -> Reader
    ensures { result ≡ after_place_count count }
{
    if count == 2 {
        Reader::Track
    } else {
        Reader::Stopped(Refusal::NotATrackFile)
    }
}

// After the cell count. No cells have no bytes.
#[tactic(auto, unfolding(crate::specs::Bytes::after_cell_count))]
fn after_cell_count(place: Place, count: u32) -> Reader
    ensures { result ≡ after_cell_count place count }
{
    if MOST_CELLS < count {
        return Reader::Stopped(Refusal::CellCount(count as usize));
    }
    if count == 0 {
        return Reader::FluxCount(place, 0, Number::Empty);
    }
    Reader::PackedCells(place, count, 0)
}

// After byte `at` of the packed cells.
#[tactic(auto, unfolding(crate::specs::Bytes::after_packed_byte))]
fn after_packed_byte(place: Place, count: u32, at: u32) -> Reader
    ensures { result ≡ after_packed_byte place count at }
{
    if (at as usize) + 1 < ((count as usize) + 7) / 8 {
        Reader::PackedCells(place, count, at + 1)
    } else {
        Reader::FluxCount(place, count, Number::Empty)
    }
}

// After the flux count, which has to be 0. A file without cells is none then.
#[tactic(auto, unfolding(crate::specs::Bytes::after_flux_count))]
fn after_flux_count(place: Place, cells: u32, timings: u32) -> Reader
    ensures { result ≡ after_flux_count place cells timings }
{
    if timings != 0 {
        return Reader::Stopped(Refusal::FluxSection);
    }
    if cells == 0 {
        return Reader::NotATrackFile;
    }
    Reader::AllCells(place, cells)
}

// Puts a byte at place `at`, where the buffer has it (rule 10.9).
pub fn put_byte(cells: &mut [u8], at: u32, byte: u8)
    ensures { cells.new ≡ set cells.old at byte }
{
    let at = at as usize;
    if at < cells.len() {
        cells[at] = byte;
    }
}

// A number and its next byte, low byte first (rule 10.2).
#[tactic(auto, unfolding(crate::specs::Bytes::number_after))]
pub fn extend(number: Number, byte: u8) -> Extended
    ensures { result ≡ number_after number byte }
{
    match number {
        Number::Empty => Extended::Part(Number::One(byte)),
        Number::One(a) => Extended::Part(Number::Two(a, byte)),
        Number::Two(a, b) => Extended::Part(Number::Three(a, b, byte)),
        Number::Three(a, b, c) => Extended::Whole(basis::four_bytes(a, b, c, byte)),
    }
}

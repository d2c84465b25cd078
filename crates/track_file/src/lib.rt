// The track file, taken in portions that are cut anywhere between two bytes: `start`, then `feed` for each portion, then `finish`. The
// cells go to a buffer that the caller lends to each call.
#![tactic(auto)]

ghost use Rattle.std.specs.Prelude.{◌≡◌, ◌+◌, ◌≤◌, ◌<◌, length};
ghost use Rattle.basis.specs.Lists.{written_over};
ghost use Rattle.refusals.specs.RefusedCalls.{answer_of, buffer_after};
ghost use Rattle.track_file.specs.TrackFile.{file_with, written_answer};
ghost use Rattle.track_file.specs.Portions.{start_of, start_cells, reader_after, cells_after, is_stopped, AtOnce, read_answer, finish_answer, WholeFile};

use file_reader::{Number, Reader};
use refusals::Refusal;

// The bytes that a cell buffer must have: room for 131,072 cells.
pub const ROOM: usize = 16_384;

// What a file gives that is not refused: its place and the number of its cells.
#[derive(Clone, Copy, Debug)]
pub struct FileCells {
    pub track: u8,
    pub side: u8,
    pub count: usize,
}

// The beginning, before any byte: the cell buffer is cleared, or refused where it has too little room (rule 10.11).
#[tactic(auto, unfolding(crate::specs::Portions::start_of, crate::specs::Portions::start_cells), using(crate::proofs::Endings::cleared_whole))]
pub fn start(cells: &mut [u8]) -> Reader
    ensures reader { result ≡ start_of (length cells.old) }
    ensures buffer { cells.new ≡ start_cells cells.old }
{
    let room = cells.len();
    if room < ROOM {
        return Reader::Stopped(Refusal::NoRoom(ROOM));
    }
    cells::clear(cells, room);
    Reader::PlaceCount(Number::Empty)
}

// A portion more of the file (rule 10.12): byte by byte, and after a byte the packed cells that follow.
pub fn feed(reader: Reader, portion: &[u8], cells: &mut [u8]) -> Reader
    ensures reader { result ≡ reader_after reader portion.now }
    ensures buffer { cells.new ≡ cells_after reader portion.now cells.old }
{
    let mut at = reader;
    let mut rest = portion;
    while let Some((byte, behind)) = rest.split_first() {
        at = file_reader::feed_byte(at, *byte, cells);
        let fed = feed_packed(at, behind, cells);
        at = fed.reader;
        rest = fed.rest;
    }
    at
}

// Whether a refusal is given at once, so that no more of the file need be read (rule 10.13).
#[tactic(auto, unfolding(crate::specs::Portions::is_stopped), using(crate::proofs::Settling::at_once))]
pub fn stopped(reader: Reader) -> bool
    ensures answer { result ≡ is_stopped reader }
    ensures file { AtOnce reader result }
{
    match reader {
        Reader::Stopped(_) => true,
        _ => false,
    }
}

// The end of the file: what it gives (rule 10.14). It writes nothing: the cells stand in the buffer that the portions were fed with.
#[tactic(auto, unfolding(crate::specs::Portions::finish_answer), using(crate::proofs::Whole::whole_of_answer))]
pub fn finish(reader: Reader) -> Result<FileCells, Refusal>
    ensures answer { read_answer result ≡ finish_answer reader }
    ensures file { WholeFile reader (read_answer result) }
{
    match reader {
        Reader::AllCells(place, count) => Ok(FileCells {
            track: place.track,
            side: place.side,
            count: count as usize,
        }),
        Reader::Stopped(refusal) => Err(refusal),
        // A file that ends anywhere else is short.
        _ => Err(Refusal::NotATrackFile),
    }
}

// Puts a track file at the front of `out` (rule 10.1): the place, the cells, and no timings. The answer is how many bytes it has. Where there is no
// room for them, 10 is given, and nothing is put.
#[tactic(auto, unfolding(crate::specs::TrackFile::written_answer, refusals::specs::RefusedCalls::buffer_after))]
pub fn write_file(
    track: u8,
    side: u8,
    count: u32,
    cells: &[u8],
    out: &mut [u8],
) -> Result<usize, Refusal>
    ensures answer { answer_of result ≡ written_answer cells.now (length out.old) }
    ensures out { out.new ≡ buffer_after (written_answer cells.now (length out.old)) (file_with track side count cells.now) out.old }
{
    let end = 10 + cells.len();
    let needed = end + 4;
    if out.len() < needed {
        return Err(Refusal::NoRoom(needed));
    }
    put_file(track, side, count, cells, out);
    Ok(needed)
}

// The same, where there is room.
fn put_file(track: u8, side: u8, count: u32, cells: &[u8], out: &mut [u8])
    requires { 14 + length cells.now ≤ length out.old }
    ensures { out.new ≡ written_over (file_with track side count cells.now) out.old }
{
    let [a, b, c, d] = count.to_le_bytes();
    let end = 10 + cells.len();
    out[..10].copy_from_slice(&[2, 0, 0, 0, track, side, a, b, c, d]);
    out[10..end].copy_from_slice(cells);
    out[end..end + 4].copy_from_slice(&[0; 4]);
}

// What is left of a portion, and the reader there.
#[derive(Clone, Copy)]
struct Fed<'a> {
    reader: Reader,
    rest: &'a [u8],
}

// Where the reader stands before packed cells at the front of a portion: as many of them as the portion has, without the last byte, after
// which the reader stands elsewhere. They are put in one loop: a reader made anew for each byte took most of the time.
fn feed_packed<'a>(reader: Reader, portion: &'a [u8], cells: &mut [u8]) -> Fed<'a>
    ensures rest { length result.rest.now ≤ length portion.now }
    ensures reader { reader_after result.reader result.rest.now ≡ reader_after reader portion.now }
    ensures buffer { cells_after result.reader result.rest.now cells.new ≡ cells_after reader portion.now cells.old }
{
    let Reader::PackedCells(place, count, first) = reader else {
        return Fed {
            reader,
            rest: portion,
        };
    };
    let packed = ((count as usize) + 7) / 8;
    let left = packed.saturating_sub(first as usize + 1);
    let end = left.min(portion.len());
    for (i, byte) in portion[..end].iter().enumerate() {
        file_reader::put_byte(cells, first + i as u32, *byte);
    }
    Fed {
        reader: Reader::PackedCells(place, count, first + end as u32),
        rest: &portion[end..],
    }
}

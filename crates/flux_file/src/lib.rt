// The old flux file, taken in portions that are cut anywhere between two bytes: `start`, then `feed` for each portion, then `finish`. The
// cells that the separator makes of its timings go to a buffer that the caller lends to each call.
#![tactic(auto)]

ghost use Rattle.std.specs.Prelude.{◌≡◌, ◌≤◌, length};
ghost use Rattle.track_file.specs.Portions.{start_cells, read_answer};
ghost use Rattle.flux_file.specs.Portions.{start_of, reader_after, cells_after, is_stopped, AtOnce, finish_answer, WholeFluxFile};

use file_reader::Number;
use flux_reader::FluxReader;
use refusals::Refusal;
use track_file::FileCells;

// The beginning, before any byte: the cell buffer is cleared, or refused where it has too little room (rule 18.8).
#[tactic(auto, unfolding(crate::specs::Portions::start_of, track_file::specs::Portions::start_cells), using(track_file::proofs::Endings::cleared_whole))]
pub fn start(cells: &mut [u8]) -> FluxReader
    ensures reader { result ≡ start_of (length cells.old) }
    ensures buffer { cells.new ≡ start_cells cells.old }
{
    let room = cells.len();
    if room < track_file::ROOM {
        return FluxReader::Stopped(Refusal::NoRoom(track_file::ROOM));
    }
    cells::clear(cells, room);
    FluxReader::PlaceCount(Number::Empty)
}

// A portion more of the file (rule 18.9): byte by byte, and after a byte the whole timings that follow.
pub fn feed(reader: FluxReader, portion: &[u8], cells: &mut [u8]) -> FluxReader
    ensures reader { result ≡ reader_after reader portion.now }
    ensures buffer { cells.new ≡ cells_after reader portion.now cells.old }
{
    let mut at = reader;
    let mut rest = portion;
    // No `for`: a turn takes the timings that follow the byte, too.
    while let Some((byte, behind)) = rest.split_first() {
        at = flux_reader::feed_byte(at, *byte, cells);
        let fed = feed_timings(at, behind, cells);
        at = fed.reader;
        rest = fed.rest;
    }
    at
}

// Whether a refusal is given at once, so that no more of the file need be read (rule 18.10).
#[tactic(auto, unfolding(crate::specs::Portions::is_stopped), using(crate::proofs::Settling::at_once))]
pub fn stopped(reader: FluxReader) -> bool
    ensures answer { result ≡ is_stopped reader }
    ensures file { AtOnce reader result }
{
    match reader {
        FluxReader::Stopped(_) => true,
        _ => false,
    }
}

// The end of the file: what it gives (rule 18.10). It writes nothing: the cells stand in the buffer that the portions were fed with.
#[tactic(auto, unfolding(crate::specs::Portions::finish_answer, crate::specs::FluxFile::placed, crate::specs::FluxFile::some_cells), using(crate::proofs::Whole::whole_of_answer))]
pub fn finish(reader: FluxReader) -> Result<FileCells, Refusal>
    ensures answer { read_answer result ≡ finish_answer reader }
    ensures file { WholeFluxFile reader (read_answer result) }
{
    match reader {
        FluxReader::AllTimings(place, taken) => {
            let count = taken_timings::count_taken(taken)?;
            // A track file without cells has no meaning.
            if count == 0 {
                return Err(Refusal::CellCount(0));
            }
            Ok(FileCells {
                track: place.track,
                side: place.side,
                count,
            })
        }
        FluxReader::Stopped(refusal) => Err(refusal),
        // A file that ends anywhere else is short.
        _ => Err(Refusal::NotATrackFile),
    }
}

// What is left of a portion, and the reader there.
#[derive(Clone, Copy)]
struct Fed<'a> {
    reader: FluxReader,
    rest: &'a [u8],
}

// Where a timing begins at the front of a portion: as many as the portion has whole, without the file's last, after which the reader stands
// elsewhere. Each is taken at once: a reader made anew for each of its bytes took most of the time.
fn feed_timings<'a>(reader: FluxReader, portion: &'a [u8], cells: &mut [u8]) -> Fed<'a>
    ensures rest { length result.rest.now ≤ length portion.now }
    ensures reader { reader_after result.reader result.rest.now ≡ reader_after reader portion.now }
    ensures buffer { cells_after result.reader result.rest.now cells.new ≡ cells_after reader portion.now cells.old }
{
    let FluxReader::Timings(place, left, Number::Empty, timings) = reader else {
        return Fed {
            reader,
            rest: portion,
        };
    };
    let (whole, _) = portion.as_chunks::<4>();
    let end = (left.saturating_sub(1) as usize).min(whole.len());
    let mut taken = timings;
    for timing in &whole[..end] {
        let number = basis::four_bytes(timing[0], timing[1], timing[2], timing[3]);
        taken = taken_timings::take_timing(taken, number, cells);
    }
    Fed {
        reader: FluxReader::Timings(place, left - end as u32, Number::Empty, taken),
        rest: &portion[4 * end..],
    }
}

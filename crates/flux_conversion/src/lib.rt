// An old flux file, written anew with the cells that the separator makes of its timings.
#![tactic(auto)]

ghost use Rattle.std.specs.Prelude.{◌≡◌, length};
ghost use Rattle.refusals.specs.RefusedCalls.{answer_of, buffer_after};
ghost use Rattle.track_file.specs.Portions.{read_answer};
ghost use Rattle.flux_file.specs.Portions.{finish_answer};
ghost use Rattle.flux_conversion.specs.Conversion.{conversion, converted};
ghost use Rattle.flux_conversion.specs.Demand3.{ConversionDemand3};
ghost use Rattle.flux_conversion.specs.Portions.{conversion_of, new_file_of, WholeConversion};
ghost use Rattle.flux_conversion.specs.PrivateContracts.{FewCells};

use flux_reader::FluxReader;
use refusals::Refusal;
use track_file::FileCells;

// The most bytes that a new file has: 131,072 cells, and the three counts with the place.
pub const MOST_BYTES: usize = 14 + track_file::ROOM;

// The conversion of a whole file in memory (rule 9.64). The file is read into a buffer of our own, so that a refused call writes nothing.
pub fn convert_file(file: &[u8], out: &mut [u8]) -> Result<usize, Refusal>
    ensures answer { answer_of result ≡ conversion (length out.old) file.now }
    ensures out { out.new ≡ converted file.now out.old }
    ensures demand3 { ConversionDemand3 file.now (answer_of result) out.old out.new }
{
    let mut cells = [0u8; track_file::ROOM];
    let start = flux_file::start(&mut cells);
    let reader = flux_file::feed(start, file, &mut cells);
    convert(reader, &cells, out)
}

// The conversion at the end of a file that came in portions, whose cells stand in `cells` (rules 18.11 to 18.14).
pub fn convert(reader: FluxReader, cells: &[u8], out: &mut [u8]) -> Result<usize, Refusal>
    ensures answer { answer_of result ≡ conversion_of (finish_answer reader) cells.now (length out.old) }
    ensures out { out.new ≡ buffer_after (conversion_of (finish_answer reader) cells.now (length out.old)) (new_file_of (finish_answer reader) cells.now) out.old }
    ensures file { WholeConversion reader cells.now (answer_of result) out.old out.new }
{
    convert_read(flux_file::finish(reader), cells, out)
}

// The conversion of a file that gives this.
#[tactic(auto, unfolding(crate::specs::Portions::conversion_of, crate::specs::Portions::new_file_of, crate::specs::Conversion::in_room, track_file::specs::TrackFile::written_answer, refusals::specs::RefusedCalls::buffer_after))]
fn convert_read(
    read: Result<FileCells, Refusal>,
    cells: &[u8],
    out: &mut [u8],
) -> Result<usize, Refusal>
    requires { FewCells (read_answer read) }
    ensures answer { answer_of result ≡ conversion_of (read_answer read) cells.now (length out.old) }
    ensures out { out.new ≡ buffer_after (conversion_of (read_answer read) cells.now (length out.old)) (new_file_of (read_answer read) cells.now) out.old }
{
    let read = read?;
    if cells.len() < track_file::ROOM {
        return Err(Refusal::NoRoom(track_file::ROOM));
    }
    let bytes = (read.count + 7) / 8;
    let count = read.count as u32;
    track_file::write_file(read.track, read.side, count, &cells[..bytes], out)
}

// The cells of a whole track file in memory. The file is read into a buffer of our own, so that a refused call writes nothing.
#![tactic(auto)]

ghost use Rattle.std.specs.Prelude.{◌≡◌, length};
ghost use Rattle.refusals.specs.RefusedCalls.{buffer_after};
ghost use Rattle.track_file.specs.Portions.{read_answer};
ghost use Rattle.track_file.specs.TrackFile.{packed_bytes};
ghost use Rattle.whole_file.specs.FileCells.{cells_answer};

use refusals::Refusal;
use track_file::FileCells;

// What a file gives, with its packed cells at the front of `cells` (rule 9.11).
pub fn file_cells(file: &[u8], cells: &mut [u8]) -> Result<FileCells, Refusal>
    ensures answer { read_answer result ≡ cells_answer (length cells.old) file.now }
    ensures cells { cells.new ≡ buffer_after (cells_answer (length cells.old) file.now) (packed_bytes file.now) cells.old }
{
    let mut own = [0u8; track_file::ROOM];
    let start = track_file::start(&mut own);
    let reader = track_file::feed(start, file, &mut own);
    let read = track_file::finish(reader)?;
    let needed = (read.count + 7) / 8;
    if cells.len() < needed {
        return Err(Refusal::NoRoom(needed));
    }
    basis::copy(&own[..needed], cells);
    Ok(read)
}

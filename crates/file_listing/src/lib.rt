// The listing of a whole track file: at the end of its portions, or of a file in memory.
#![tactic(auto)]

ghost use Rattle.std.specs.Prelude.{◌≡◌, ◌≤◌, length};
ghost use Rattle.lines.specs.Lines.{out_after};
ghost use Rattle.track_file.specs.Portions.{read_answer, finish_answer};
ghost use Rattle.file_listing.specs.ListingOfFile.{printed_file, file_listing, WholeListing};

use cells::Cells;
use file_reader::Reader;
use refusals::Refusal;
use sectors::Track;
use track_file::FileCells;

// The end of a track file that came in portions: its listing, at the front of `out`. `cells` is the buffer that the file was read with.
pub fn list_file(reader: Reader, cells: &[u8], out: &mut [u8]) -> usize
    ensures answer { result ≡ length (printed_file (finish_answer reader) cells.now) }
    ensures few { result ≤ 65536 }
    ensures out { out.new ≡ out_after (printed_file (finish_answer reader) cells.now) out.old }
    ensures file { WholeListing reader cells.now result out.old out.new }
{
    let read = track_file::finish(reader);
    list_read(read, cells, out)
}

// The listing of a track file in memory, at the front of `out`. A buffer of 65,536 bytes holds any.
pub fn list_whole_file(file: &[u8], out: &mut [u8]) -> usize
    ensures answer { result ≡ length (file_listing 16384 file.now) }
    ensures few { result ≤ 65536 }
    ensures out { out.new ≡ out_after (file_listing 16384 file.now) out.old }
{
    let mut cells = [0u8; track_file::ROOM];
    let start = track_file::start(&mut cells);
    let reader = track_file::feed(start, file, &mut cells);
    list_file(reader, &cells, out)
}

// The listing of what a file gave.
#[tactic(auto, unfolding(crate::specs::ListingOfFile::printed_file))]
fn list_read(read: Result<FileCells, Refusal>, cells: &[u8], out: &mut [u8]) -> usize
    ensures answer { result ≡ length (printed_file (read_answer read) cells.now) }
    ensures few { result ≤ 65536 }
    ensures out { out.new ≡ out_after (printed_file (read_answer read) cells.now) out.old }
{
    match read {
        Ok(file) => {
            let track = Track {
                cells: Cells {
                    bytes: cells,
                    count: file.count,
                },
                track: u32::from(file.track),
                side: u32::from(file.side),
            };
            listing::list_track(track, out)
        }
        Err(refusal) => lines::refused_line(out, refusal.number()),
    }
}

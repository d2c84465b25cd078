// The tracks of a disk, from track files: what a file brings is added to the two lists that the page of the disk is made of.
#![tactic(auto)]

ghost use Rattle.std.specs.Prelude.{◌≡◌};
ghost use Rattle.std.proofs.lemmas.List.Edits.{sets};
ghost use Rattle.refusals.specs.RefusedCalls.{answer_of};
ghost use Rattle.track_file.specs.Portions.{finish_answer};
ghost use Rattle.disk_files.specs.TrackOfFile.{track_found, file_track, finding_count, track_numbers, finding_numbers};

use cells::Cells;
use file_reader::Reader;
use finding_list::NUMBERS;
use layouts::Density;
use refusals::Refusal;
use sectors::Track;

// The end of a track file that came in portions: its track, as three numbers, goes to `tracks` from index `at` on, and the track's findings go
// to `findings` from index `from` on. The answer is the number of its findings. A file that is refused adds nothing. `cells` is the buffer that
// the file was read with.
#[tactic(auto, unfolding(crate::specs::TrackOfFile::file_track, crate::specs::TrackOfFile::finding_count, crate::specs::TrackOfFile::track_numbers, crate::specs::TrackOfFile::finding_numbers))]
pub fn add_file(
    reader: Reader,
    cells: &[u8],
    tracks: &mut [u32],
    at: usize,
    findings: &mut [u32],
    from: usize,
) -> Result<usize, Refusal>
    ensures answer { answer_of result ≡ finding_count (file_track (finish_answer reader) cells.now) }
    ensures tracks { tracks.new ≡ sets tracks.old at (track_numbers (file_track (finish_answer reader) cells.now)) }
    ensures findings { findings.new ≡ sets findings.old from (finding_numbers (file_track (finish_answer reader) cells.now)) }
{
    let read = track_file::finish(reader)?;
    let track = Track {
        cells: Cells {
            bytes: cells,
            count: read.count,
        },
        track: u32::from(read.track),
        side: u32::from(read.side),
    };
    add_track(track, tracks, at, findings, from)
}

// The same of the track of an accepted file.
#[tactic(auto, unfolding(crate::specs::TrackOfFile::track_found, crate::specs::TrackOfFile::found, crate::specs::TrackOfFile::finding_count, crate::specs::TrackOfFile::track_numbers, crate::specs::TrackOfFile::finding_numbers))]
fn add_track(
    track: Track,
    tracks: &mut [u32],
    at: usize,
    findings: &mut [u32],
    from: usize,
) -> Result<usize, Refusal>
    ensures answer { answer_of result ≡ finding_count (track_found track.entry.cells.bytes.now track.entry.cells.count track.entry.track track.entry.side) }
    ensures tracks { tracks.new ≡ sets tracks.old at (track_numbers (track_found track.entry.cells.bytes.now track.entry.cells.count track.entry.track track.entry.side)) }
    ensures findings { findings.new ≡ sets findings.old from (finding_numbers (track_found track.entry.cells.bytes.now track.entry.cells.count track.entry.track track.entry.side)) }
{
    let mut numbers: [u32; NUMBERS] = [0; NUMBERS];
    let found = findings::findings_as_numbers(Density::Double, track, &mut numbers)?;
    let count = found.findings;
    put(&[track.track, track.side, count as u32], tracks, at);
    put(&numbers[..4 * count], findings, from);
    Ok(count)
}

// Numbers in a list from index `at` on, as many as there is room for.
fn put(numbers: &[u32], list: &mut [u32], at: usize)
    ensures { list.new ≡ sets list.old at numbers.now }
{
    let start = at.min(list.len());
    basis::copy(numbers, &mut list[start..]);
}

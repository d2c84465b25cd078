// The listing of a track, as bytes: a header and a line for each finding, or `refused` and a number, at the front of a lent buffer. What
// there is no room for is not written; the answer is the number of bytes of the whole.
#![tactic(auto)]

ghost use Rattle.std.specs.Prelude.{◌≡◌, ◌*◌, ◌≤◌, length};
ghost use Rattle.basis.specs.Lists.{joined};
ghost use Rattle.lines.specs.Lines.{out_after};
ghost use Rattle.lines.specs.Writing.{Wrote};
ghost use Rattle.listing.specs.Listing.{listing_of};
ghost use Rattle.listing.specs.PrivateContracts.{line_at};

use findings::Density;
use sectors::Track;

// The whole listing of a track of double density. A buffer of 65,536 bytes holds any.
pub fn list_track(track: Track, out: &mut [u8]) -> usize
    ensures answer { result ≡ length (listing_of track.entry.cells.bytes.now track.entry.cells.count track.entry.track track.entry.side) }
    ensures few { result ≤ 65536 }
    ensures out { out.new ≡ out_after (listing_of track.entry.cells.bytes.now track.entry.cells.count track.entry.track track.entry.side) out.old }
{
    let mut numbers = [0; NUMBERS];
    match findings::findings_as_numbers(Density::Double, track, &mut numbers) {
        Err(refusal) => lines::refused_line(out, refusal.number()),
        Ok(found) => {
            let cells = track.cells.count as u32;
            let sectors = found.sectors as u32;
            let count = found.findings;
            let at = lines::header(out, track.track, track.side, cells, sectors, count as u32);
            write_lines(out, at, &numbers, count)
        }
    }
}

// The most numbers: four for each of the 901 findings that 64 sectors can bring.
const NUMBERS: usize = 3604;

// A line for each of the findings that stand in the numbers.
fn write_lines(out: &mut [u8], at: usize, numbers: &[u32; NUMBERS], count: usize) -> usize
    requires { (at ≤ 72) × (count ≤ 901) }
    ensures { Wrote out.old at (joined (line_at numbers.now) count) (67 * count) out.new result }
{
    let mut next = at;
    for i in 0..count {
        let k = 4 * i;
        next = lines::finding_line_at(
            out,
            next as u32,
            numbers[k],
            numbers[k + 1],
            numbers[k + 2],
            numbers[k + 3],
        );
    }
    next
}

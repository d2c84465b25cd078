// Track files in memory, and listings.
ghost use Rattle.std.specs.Prelude.{◌≡◌, ◌≤◌, length};
ghost use Rattle.refusals.specs.RefusedCalls.{buffer_after};
ghost use Rattle.track_file.specs.TrackFile.{packed_bytes};
ghost use Rattle.whole_file.specs.FileCells.{cells_answer};
ghost use Rattle.telling.specs.Numbers.{number_in, value_given, place_given};
ghost use Rattle.lines.specs.Lines.{out_after};
ghost use Rattle.listing.specs.Listing.{listing_of};
ghost use Rattle.file_listing.specs.ListingOfFile.{file_listing};

use crate::track_of;
use telling::told_file;

// The cells of a track file, packed at the front of `cells`; `value` is their number, and the track and the side stand at the front of
// `place`, as many of the two as it has room for. The file is judged first, and then the room for its cells.
#[unsafe(no_mangle)]
pub extern "C" fn thikbromu_file_cells(
    file: &[u8],
    cells: &mut [u8],
    place: &mut [u32],
    value: &mut usize,
) -> u32
    ensures number { result ≡ number_in (cells_answer (length cells.old) file.now) }
    ensures value { value.new ≡ value_given (cells_answer (length cells.old) file.now) }
    ensures place { place.new ≡ place_given (cells_answer (length cells.old) file.now) place.old }
    ensures cells { cells.new ≡ buffer_after (cells_answer (length cells.old) file.now) (packed_bytes file.now) cells.old }
{
    told_file(whole_file::file_cells(file, cells), place, value)
}

// The listing of a track file, at the front of `out`, as much of it as there is room for; the answer is the number of bytes of the whole. A
// buffer of 65,536 bytes holds any.
#[unsafe(no_mangle)]
pub extern "C" fn thikbromu_file_listing(file: &[u8], out: &mut [u8]) -> usize
    ensures answer { result ≡ length (file_listing 16384 file.now) }
    ensures few { result ≤ 65536 }
    ensures out { out.new ≡ out_after (file_listing 16384 file.now) out.old }
{
    file_listing::list_whole_file(file, out)
}

// The listing of a track of n cells, packed in `bytes`, at the front of `out`; the answer is the number of bytes of the whole.
#[unsafe(no_mangle)]
pub extern "C" fn thikbromu_listing(
    bytes: &[u8],
    n: usize,
    track: u32,
    side: u32,
    out: &mut [u8],
) -> usize
    ensures answer { result ≡ length (listing_of bytes.now n track side) }
    ensures few { result ≤ 65536 }
    ensures out { out.new ≡ out_after (listing_of bytes.now n track side) out.old }
{
    listing::list_track(track_of(bytes, n, track, side), out)
}

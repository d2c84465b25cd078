// Reads a track file from standard input and writes its listing, or "refused" and a number, to standard output.
//
// It stops reading at a refusal that is given at once, and otherwise at the end of the input. Where the input cannot be read to its end,
// nothing is known of the file: it says so on standard error, and lists nothing.
#![tactic(auto)]

ghost use Rattle.std.specs.Prelude.{◌≤◌, ◌≢◌, Some};
ghost use Rattle.system_calls.specs.Counts.{written_count};
ghost use Rattle.track_listing.specs.InputListing.{ListedInput};

use std::io::Read;
use track_input::Input;

// Reads the input, by way of `buffer`, and then puts its listing at the front of `buffer`; the answer is the number of its bytes. There is
// none where the input cannot be read to its end: there is nothing to list then.
fn list_input<R: Read>(
    from: &mut R,
    cells: &mut [u8; track_file::ROOM],
    buffer: &mut [u8; 65536],
) -> Option<usize>
    ensures few { written_count result ≤ 65536 }
    ensures listing { ListedInput cells.old (written_count result) buffer.new }
    ensures told { result ≢ Some 0 }
{
    let start = track_file::start(cells);
    match track_input::read_all(from, start, buffer, cells) {
        Input::Ended(reader) => Some(file_listing::list_file(reader, cells, buffer)),
        Input::Open(_) | Input::Failed => None,
    }
}

fn main(rt: HostRuntime) {
    let mut cells = [0u8; track_file::ROOM];
    let mut buffer = system_calls::large_buffer();
    let _ = match list_input(&mut rt.stdin(), &mut cells, &mut buffer) {
        Some(count) => rt.stdout().write_all(&buffer[..count]),
        None => rt
            .stderr()
            .write_all(b"track_listing: the input cannot be read to its end\n"),
    };
}

// Reads an old flux file from standard input and writes it anew, with a cell section, to standard output; or "refused" and a number.
//
// It stops reading at a refusal that is given at once, and otherwise at the end of the input, and writes only then. Where the input cannot be
// read to its end, nothing is known of the file: it says so on standard error, and writes no file.
#![tactic(auto)]

ghost use Rattle.std.specs.Prelude.{◌≢◌, Some};
ghost use Rattle.system_calls.specs.Counts.{written_count};
ghost use Rattle.flux_to_cells.specs.OutputOfInput.{ConvertedInput};

use std::io::Read;
use track_input::Input;

// Reads the input, by way of `buffer`, and then puts what is to be written at the front of `buffer`; the answer is the number of its bytes.
// There is none where the input cannot be read to its end: there is nothing to write then.
fn convert_input<R: Read>(
    from: &mut R,
    cells: &mut [u8; track_file::ROOM],
    buffer: &mut [u8; 65536],
) -> Option<usize>
    ensures file { ConvertedInput (written_count result) buffer.new }
    ensures told { result ≢ Some 0 }
{
    let start = flux_file::start(cells);
    match track_input::read_all(from, start, buffer, cells) {
        Input::Ended(reader) => match flux_conversion::convert(reader, cells, buffer) {
            Ok(count) => Some(count),
            Err(refusal) => Some(lines::refused_line(buffer, refusal.number())),
        },
        Input::Open(_) | Input::Failed => None,
    }
}

fn main(rt: HostRuntime) {
    let mut cells = [0u8; track_file::ROOM];
    let mut buffer = system_calls::large_buffer();
    let _ = match convert_input(&mut rt.stdin(), &mut cells, &mut buffer) {
        Some(count) => rt.stdout().write_all(&buffer[..count]),
        None => rt
            .stderr()
            .write_all(b"flux_to_cells: the input cannot be read to its end\n"),
    };
}

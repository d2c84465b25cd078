// Reads a track file or an old flux file from an input, portion by portion, into a cell buffer.
//
// It stops reading at a refusal that is given at once, and otherwise at the end of the input. Where the input cannot be read to its end,
// nothing is known of the file.
#![tactic(auto)]

ghost use Rattle.std.specs.Prelude.{◌≡◌};
ghost use Rattle.track_input.specs.Formats.{track_file_steps, flux_file_steps};
ghost use Rattle.track_input.specs.PrivateContracts.{TakenRead};
ghost use Rattle.track_input.specs.Reading.{Steps, bytes_read, input_with, input_after, ReadThrough};

use file_reader::Reader;
use flux_reader::FluxReader;
use std::io::Read;

// A format of file, by its reader: where the reading of such a file stands.
pub trait Format: Copy {
    ghost steps: { Steps Self };

    // Takes a portion more of the file.
    fn feed(self, portion: &[u8], cells: &mut [u8]) -> Self
        ensures reader { result ≡ steps.reader_after self portion.now }
        ensures cells { cells.new ≡ steps.cells_after self portion.now cells.old };

    // Whether a refusal is given at once, so that no more of the file need be read.
    fn stopped(self) -> bool
        ensures { result ≡ steps.is_stopped self };
}

impl Format for Reader {
    ghost steps = { track_file_steps };

    fn feed(self, portion: &[u8], cells: &mut [u8]) -> Reader {
        track_file::feed(self, portion, cells)
    }

    fn stopped(self) -> bool {
        track_file::stopped(self)
    }
}

impl Format for FluxReader {
    ghost steps = { flux_file_steps };

    fn feed(self, portion: &[u8], cells: &mut [u8]) -> FluxReader {
        flux_file::feed(self, portion, cells)
    }

    fn stopped(self) -> bool {
        flux_file::stopped(self)
    }
}

// How far the input is read: it goes on, there is nothing more to read, or a read has failed.
#[derive(Clone, Copy)]
pub enum Input<F> {
    Open(F),
    Ended(F),
    Failed,
}

// Reads portion after portion from the input `from`, by way of `portion`. A proved loop has to end, and nothing says that an input
// does: there are more turns than any run takes.
pub fn read_all<F: Format, R: Read>(
    from: &mut R,
    reader: F,
    portion: &mut [u8],
    cells: &mut [u8],
) -> Input<F>
    ensures { ReadThrough F.steps reader cells.old result cells.new }
{
    let mut at = reader;
    for _ in 0..u64::MAX {
        let input = read_portion(from, at, portion, cells);
        match input {
            Input::Open(next) => at = next,
            Input::Ended(last) => return Input::Ended(last),
            Input::Failed => return Input::Failed,
        }
    }
    Input::Open(at)
}

// One read, of as much as there is and the portion holds.
fn read_portion<F: Format, R: Read>(
    from: &mut R,
    reader: F,
    portion: &mut [u8],
    cells: &mut [u8],
) -> Input<F>
    ensures { TakenRead F.steps reader portion.new cells.old result cells.new }
{
    let got = system_calls::read(from, portion);
    take_read(reader, got, portion, cells)
}

// What a read brings that answered `got` and left this portion.
fn take_read<F: Format>(reader: F, got: isize, portion: &[u8], cells: &mut [u8]) -> Input<F>
    ensures input { result ≡ input_after F.steps reader got portion.now }
    ensures cells { cells.new ≡ F.steps.cells_after reader (bytes_read got portion.now) cells.old }
{
    let count = system_calls::count(got, portion);
    let next = reader.feed(&portion[..count], cells);
    input_with(got, next)
}

// The input after a read that answered `got`, where the reader has taken its bytes. A read that fails is not tried again: after a connection
// that was reset, the next one would tell of an end.
fn input_with<F: Format>(got: isize, reader: F) -> Input<F>
    ensures { result ≡ input_with F.steps got reader }
{
    if got < 0 {
        return Input::Failed;
    }
    if 0 < got {
        if reader.stopped() {
            return Input::Ended(reader);
        }
        return Input::Open(reader);
    }
    Input::Ended(reader)
}

// Reads a track file from standard input and writes the plain image of its track, 4,608 bytes, to standard output.
//
// Where that is refused, or the input cannot be read to its end, nothing goes to standard output, and standard error gets one line.
#![tactic(auto)]

ghost use Rattle.std.specs.Prelude.{◌≡◌, ◌≤◌, length};
ghost use Rattle.lines.specs.Lines.{digit, out_after};
ghost use Rattle.refusals.specs.RefusedCalls.{number_of, value_of};
ghost use Rattle.st_track.specs.ImageOfInput.{output_count, message_count, number_line, refusal_line, unreadable_line, ImagedInput};

use refusals::Refusal;
use std::io::Read;
use track_input::Input;

// Where the bytes at the front of a buffer go, and how many they are: an image to standard output, or a line to standard error.
// It is no Result: a line is written as what was asked for is, only elsewhere.
#[derive(Clone, Copy, Debug)]
enum Written {
    Output(usize),
    Message(usize),
}

// Reads the input, by way of `buffer`, and then puts its image, or the line that says why there is none, at the front of `buffer`.
fn image_input<R: Read>(
    from: &mut R,
    cells: &mut [u8; track_file::ROOM],
    buffer: &mut [u8; 65536],
) -> Written
    ensures few_output { output_count result ≤ 65536 }
    ensures few_message { message_count result ≤ 65536 }
    ensures image { ImagedInput (output_count result) (message_count result) buffer.new }
{
    let start = track_file::start(cells);
    match track_input::read_all(from, start, buffer, cells) {
        Input::Ended(reader) => match file_image::image_file(reader, cells, buffer) {
            Ok(count) => Written::Output(count),
            Err(refusal) => Written::Message(write_refusal(refusal, buffer)),
        },
        Input::Open(_) | Input::Failed => Written::Message(write_unreadable(buffer)),
    }
}

// Writes the line of a refusal.
#[tactic(auto, unfolding(crate::specs::ImageOfInput::number_line, crate::specs::ImageOfInput::refusal_line, lines::specs::Lines::bytes_of))]
fn write_refusal(refusal: Refusal, out: &mut [u8]) -> usize
    ensures answer { result ≡ length (refusal_line (number_of refusal) (value_of refusal)) }
    ensures few { result ≤ 20 }
    ensures out { out.new ≡ out_after (refusal_line (number_of refusal) (value_of refusal)) out.old }
{
    match refusal {
        Refusal::NoPlainImage(number) => write_number(number, out),
        _ => lines::refused_line(out, refusal.number()),
    }
}

// Writes the line of refusal 24, with the number that stands in the way.
#[tactic(auto, unfolding(crate::specs::ImageOfInput::number_line, lines::specs::Lines::bytes_of))]
fn write_number(value: usize, out: &mut [u8]) -> usize
    ensures answer { result ≡ 20 }
    ensures out { out.new ≡ out_after (number_line value) out.old }
{
    let mut line = *b"refused 24 number 0\n";
    line[18] = last_digit(value);
    basis::copy(&line, out);
    20
}

// The last decimal digit of a number, as a character.
#[tactic(auto, unfolding(lines::specs::Lines::digit))]
fn last_digit(n: usize) -> u8
    ensures { result ≡ digit n }
{
    b'0' + (n % 10) as u8
}

// Writes the line of an input that cannot be read to its end.
#[tactic(auto, unfolding(crate::specs::ImageOfInput::unreadable_line, lines::specs::Lines::bytes_of))]
fn write_unreadable(out: &mut [u8]) -> usize
    ensures answer { result ≡ 46 }
    ensures out { out.new ≡ out_after unreadable_line out.old }
{
    basis::copy(b"st_track: the input cannot be read to its end\n", out);
    46
}

fn main(rt: HostRuntime) {
    let mut cells = [0u8; track_file::ROOM];
    let mut buffer = system_calls::large_buffer();
    let _ = match image_input(&mut rt.stdin(), &mut cells, &mut buffer) {
        Written::Output(count) => rt.stdout().write_all(&buffer[..count]),
        Written::Message(count) => rt.stderr().write_all(&buffer[..count]),
    };
}

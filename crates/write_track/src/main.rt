// Reads a list of bytes from standard input, makes a track of it as the controller's command Write Track does, and writes the track file of
// that track to standard output.
//
//     write_track TRACK SIDE < LIST > FILE
//
// TRACK and SIDE, which the file names as its place, are numbers from 0 to 255. With other arguments the program writes how it is called to
// standard error, and nothing else. Where no track file is made, standard output gets nothing, and standard error one line.
#![tactic(auto)]

ghost use Rattle.std.specs.Prelude.{◌≡◌, ◌≤◌, length};
ghost use Rattle.block_choice.specs.Arguments.{choice_seen};
ghost use Rattle.refusals.specs.RefusedCalls.{number_of};
ghost use Rattle.write_track.specs.Arguments.{place_of, PlaceRead};
ghost use Rattle.write_track.specs.FileOfList.{file_with, refusal, unreadable, output_count, message_count, outputs_of, outputs_of_input, AtFront, Made, MadeOfInput};

use block_choice::Choice;
use refusals::Refusal;
use std::env::{Env, FillError};
use std::io::Read;

// The length of the command line in words, of which the first is the program's name. A word for which there is no room is too long, or empty. Each program
// that asks has a function of its own: a public one would need a clause, and no contract knows what words there are.
fn word_count<E: Env>(env: &E) -> usize {
    for i in 0..usize::MAX {
        if let Err(FillError::NotPresent) = env.arg(i, &mut []) {
            return i;
        }
    }
    usize::MAX
}

// A list of more bytes than a track can hold is refused, so that one byte more is all that need be read.
const LIST_ROOM: usize = track_writer::MOST_PIECES + 1;

const CELL_ROOM: usize = 2 * track_writer::MOST_PIECES;

const OUT_ROOM: usize = 65_536;

// Where the bytes at the front of a buffer go, and how many they are: a track file to standard output, or a line to standard error.
// It is no Result: a line is written as what was asked for is, only elsewhere.
#[derive(Clone, Copy, Debug)]
enum Written {
    Output(usize),
    Message(usize),
}

// The program's arguments, each by way of a room of its own.
fn read_place<E: Env>(env: &E, first: &mut [u8], second: &mut [u8]) -> Option<Choice>
    ensures { PlaceRead (choice_seen result) first.new second.new }
{
    let a = system_calls::word(env, 1, first);
    let b = system_calls::word(env, 2, second);
    place_of(word_count(env), &first[..a], &second[..b])
}

// The place that two words name, where the program was started with so many, its own name among them. They are taken as the last two of the
// four words that choose of a track block.
#[tactic(auto, unfolding(crate::specs::Arguments::place_of, block_choice::specs::Arguments::choice_of, block_choice::specs::Arguments::argument_of, block_choice::specs::Arguments::argument_from))]
fn place_of(words: usize, first: &[u8], second: &[u8]) -> Option<Choice>
    ensures { choice_seen result ≡ place_of words first.now second.now }
{
    if words != 3 {
        return None;
    }
    block_choice::choice_of(5, b"0", b"0", first, second)
}

// Reads the list, and puts the track file that is made of it, or the line that says why there is none, at the front of `out`.
fn write_input<R: Read>(
    from: &mut R,
    track: u8,
    side: u8,
    list: &mut [u8; LIST_ROOM],
    cells: &mut [u8; CELL_ROOM],
    out: &mut [u8; OUT_ROOM],
) -> Written
    ensures { MadeOfInput track side (output_count result) (message_count result) out.new }
{
    let input = standard_input::read_on(from, list, 0);
    write_read(track, side, &list[..input.count], input.ended, cells, out)
}

// What is to be written of an input of which these bytes were read, and which ended there or not.
#[tactic(auto, unfolding(crate::specs::FileOfList::outputs_of_input))]
fn write_read(
    track: u8,
    side: u8,
    list: &[u8],
    ended: bool,
    cells: &mut [u8; CELL_ROOM],
    out: &mut [u8; OUT_ROOM],
) -> Written
    ensures { Made (outputs_of_input track side ended list.now) (output_count result) (message_count result) out.new }
{
    if track_writer::MOST_PIECES < list.len() {
        return write_list(track, side, list, cells, out);
    }
    if ended {
        return write_list(track, side, list, cells, out);
    }
    write_unreadable(out)
}

// What is to be written of a list.
fn write_list(
    track: u8,
    side: u8,
    list: &[u8],
    cells: &mut [u8; CELL_ROOM],
    out: &mut [u8; OUT_ROOM],
) -> Written
    ensures { Made (outputs_of track side list.now) (output_count result) (message_count result) out.new }
{
    if 83 < track {
        return write_refusal(Refusal::TrackOrSide, out);
    }
    if 1 < side {
        return write_refusal(Refusal::TrackOrSide, out);
    }
    if list.is_empty() {
        return write_refusal(Refusal::NotATrackFile, out);
    }
    match track_writer::write_track(list, cells) {
        Ok(count) => {
            let length = write_file(track, side, count, &cells[..count / 8], out);
            Written::Output(length)
        }
        Err(refusal) => write_refusal(refusal, out),
    }
}

// Puts a track file at the front of `out`: the place, the cells, and no timings. The answer is how many bytes it has. It is not track_file's, since that one
// promises by the definition of a file that was read, and this one by what Write Track is to give (specs/FileOfList).
fn write_file(track: u8, side: u8, count: usize, cells: &[u8], out: &mut [u8; OUT_ROOM]) -> usize
    requires count { count ≤ 131072 }
    requires cells { length cells.now ≤ 16384 }
    ensures { AtFront (file_with track side count cells.now) result out.new }
{
    let [a, b, c, d] = (count as u32).to_le_bytes();
    let end = 10 + cells.len();
    out[..10].copy_from_slice(&[2, 0, 0, 0, track, side, a, b, c, d]);
    out[10..end].copy_from_slice(cells);
    out[end..end + 4].copy_from_slice(&[0; 4]);
    end + 4
}

// Puts the line of a refusal at the front of `out`.
fn write_refusal(reason: Refusal, out: &mut [u8; OUT_ROOM]) -> Written
    ensures { Made (refusal (number_of reason)) (output_count result) (message_count result) out.new }
{
    Written::Message(lines::refused_line(out, reason.number()))
}

// Puts the line of an input that cannot be read to its end at the front of `out`.
fn write_unreadable(out: &mut [u8; OUT_ROOM]) -> Written
    ensures { Made unreadable (output_count result) (message_count result) out.new }
{
    out[..48].copy_from_slice(b"write_track: the list cannot be read to its end\n");
    Written::Message(48)
}

fn main(rt: HostRuntime) {
    let mut first = system_calls::buffer();
    let mut second = system_calls::buffer();
    let Some(place) = read_place(&rt, &mut first, &mut second) else {
        let _ = rt
            .stderr()
            .write_all(b"usage: write_track TRACK SIDE < LIST > FILE\n");
        return;
    };
    let mut list = [0u8; LIST_ROOM];
    let mut cells = [0u8; CELL_ROOM];
    let mut out = system_calls::large_buffer();
    let written = write_input(
        &mut rt.stdin(),
        place.track,
        place.side,
        &mut list,
        &mut cells,
        &mut out,
    );
    let _ = match written {
        Written::Output(count) => rt.stdout().write_all(&out[..count]),
        Written::Message(count) => rt.stderr().write_all(&out[..count]),
    };
}

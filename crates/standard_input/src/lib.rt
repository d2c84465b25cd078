// Reads of an input, as standard input, as far as a lent room reaches.
#![tactic(auto)]

ghost use Rattle.std.specs.Prelude.{◌≡◌, length, take};
ghost use Rattle.standard_input.specs.Reading.{bytes_read, is_end, TakenRead, SomeRead, ReadOn};

use std::io::Read;

// What was read: so many bytes, and whether the input ended after them. One that failed or goes on has not ended. It is
// no Result, since what came before a failure counts too.
#[derive(Clone, Copy, Debug)]
pub struct Input {
    pub count: usize,
    pub ended: bool,
}

// Reads on after the first `from` bytes of the room, to the end of the input or of the room. A read that fails is not tried again: after a
// connection that was reset, the next one would tell of an end.
pub fn read_on<R: Read>(input: &mut R, room: &mut [u8], from: usize) -> Input
    ensures { ReadOn (take from room.old) room.new result.count result.ended }
{
    let mut count = from.min(room.len());
    // No counted loop: what a turn adds is what its read brings.
    while count < room.len() {
        let more = read_once(input, &mut room[count..]);
        if more.count == 0 {
            return Input {
                count,
                ended: more.ended,
            };
        }
        count += more.count;
    }
    Input {
        count,
        ended: false,
    }
}

// One read behind a full room: it brings a byte, or the input ended with the room.
pub fn read_further<R: Read>(input: &mut R) -> Input
    ensures { SomeRead result.count result.ended }
{
    let mut beyond = [0u8; 1];
    read_once(input, &mut beyond)
}

// One read, of as much as there is and the room holds.
fn read_once<R: Read>(input: &mut R, room: &mut [u8]) -> Input
    ensures { TakenRead room.new result.count result.ended }
{
    let got = system_calls::read(input, room);
    take_read(got, room)
}

// What a read brought that answered `got` and left this room.
fn take_read(got: isize, room: &[u8]) -> Input
    ensures count { result.count ≡ length (bytes_read got room.now) }
    ensures ended { result.ended ≡ is_end got }
{
    Input {
        count: system_calls::count(got, room),
        ended: at_end(got),
    }
}

// Whether a read that answered this is at the end of the input. One that failed is not.
fn at_end(got: isize) -> bool
    ensures { result ≡ is_end got }
{
    got == 0
}

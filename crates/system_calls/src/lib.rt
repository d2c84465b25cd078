// What the programs ask of the system, over std: a read, a word of the command line, and rooms for these.
//
// What the system brings is not known to a contract: neither the bytes of a read nor the words that a program was started with. So the calls promise
// how much they bring, of any reader and any command line. No call needs the heap.
#![tactic(auto)]

ghost use Rattle.std.specs.Prelude.{◌≡◌, ◌≤◌, length, replicate};
ghost use Rattle.system_calls.specs.Counts.{ReadAnswers, count_in};

use std::env::Env;
use std::io::Read;

// 4,096 zeros: room for a file's name or a word of the command line.
pub fn buffer() -> [u8; 4096]
    ensures room { 4096 ≡ length result }
    ensures zeros { result ≡ replicate 4096 0 }
{
    [0; 4096]
}

// 65,536 zeros: room for a portion of an input, and for what is to be written.
pub fn large_buffer() -> [u8; 65536]
    ensures room { 65536 ≡ length result }
    ensures zeros { result ≡ replicate 65536 0 }
{
    [0; 65536]
}

// One read, of as much as there is and the room holds: how many bytes it put at the front of the room, or -1 where it failed.
// It stays a number: the rules of the programs are stated on it (`ReadAnswers` here, `bytes_read` above).
pub fn read<R: Read>(from: &mut R, room: &mut [u8]) -> isize
    ensures { ReadAnswers (length room.new) result }
{
    match from.read(room) {
        Ok(count) => count as isize,
        Err(_) => -1,
    }
}

// How many bytes at the front of a room a read brought that answered `got`: 0 where it failed, and no more than the room has.
pub fn count(got: isize, room: &[u8]) -> usize
    ensures in_room { result ≤ length room.now }
    ensures value { result ≡ count_in got (length room.now) }
{
    if got > 0 {
        (got as usize).min(room.len())
    } else {
        0
    }
}

// Word i of the command line, copied to the front of the room: the answer is how many bytes it has. A word that is missing or does not fit has none.
// Word 0 is the program's name.
pub fn word<E: Env>(env: &E, i: usize, room: &mut [u8]) -> usize
    ensures { result ≤ length room.new }
{
    match env.arg(i, room) {
        Ok(count) => count.min(room.len()),
        Err(_) => 0,
    }
}

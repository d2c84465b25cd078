// Reads a track block of a SuperCard Pro image from standard input, and writes the listing of the track with the cells of one of its
// revolutions, or "refused" and a number, to standard output. The input is read as a stream of bytes.
//
//     scp_track REVOLUTIONS REVOLUTION TRACK SIDE < BLOCK
//
// REVOLUTIONS is the number of revolutions in the image's header, REVOLUTION the one to list, counted from 0, TRACK and SIDE the drive's.
// Each is a number from 0 to 255. With other arguments the program writes how it is called to standard error, and nothing else. Where the
// input cannot be read to its end, or is longer than 4,194,304 bytes, it says so there, and lists nothing.
#![tactic(auto)]

ghost use Rattle.std.specs.Prelude.{◌≡◌, ◌≢◌, [], ◌≤◌, length, Some};
ghost use Rattle.block_choice.specs.Arguments.{choice_seen};
ghost use Rattle.lines.specs.Lines.{out_after};
ghost use Rattle.system_calls.specs.Counts.{written_count};
ghost use Rattle.scp_track.specs.Arguments.{ChoiceRead};
ghost use Rattle.scp_track.specs.InputListing.{input_listing, ListedBlock};

use block_choice::Choice;
use std::env::{Env, FillError};
use std::io::Read;

// The length of the command line in words, of which the first is the program's name. A word for which there is no room is too long, or empty. Each program
// that asks has a function of its own: a public one would need a clause, and no contract knows what words there are.
fn word_count<E: Env>(env: &E) -> usize {
    for i in 0..usize::MAX {
        if let Err(FillError::NotPresent) = env.arg(i, &mut []) {
            return i;
        }
    }
    usize::MAX
}

// Room for a usual block: up to five revolutions, each with some 50,000 values. The longest, as 31 revolutions with 65,536 values each, gets a
// room of its own only where it is needed: a program pays for each page of its room, and most blocks are short.
const USUAL_REVOLUTIONS: u8 = 5;

const USUAL_ROOM: usize = 524_288;

const LONGEST_ROOM: usize = 4_194_304;

// The program's arguments, each by way of a room of its own.
fn read_choice<E: Env>(
    env: &E,
    first: &mut [u8],
    second: &mut [u8],
    third: &mut [u8],
    fourth: &mut [u8],
) -> Option<Choice>
    ensures { ChoiceRead (choice_seen result) first.new second.new third.new fourth.new }
{
    let a = system_calls::word(env, 1, first);
    let b = system_calls::word(env, 2, second);
    let c = system_calls::word(env, 3, third);
    let d = system_calls::word(env, 4, fourth);
    block_choice::choice_of(
        word_count(env),
        &first[..a],
        &second[..b],
        &third[..c],
        &fourth[..d],
    )
}

// What is to be written of an input of which these bytes were read, and which ended there or not: its listing, at the front of `out`, or nothing.
#[tactic(auto, unfolding(crate::specs::InputListing::input_listing), using(crate::proofs::Inputs::nothing_written))]
fn list_read(choice: Choice, block: &[u8], ended: bool, out: &mut [u8]) -> Option<usize>
    ensures answer { written_count result ≡ length (input_listing ended block.now choice.revolutions choice.revolution choice.track choice.side) }
    ensures few { written_count result ≤ 65536 }
    ensures told { result ≢ Some 0 }
    ensures out { out.new ≡ out_after (input_listing ended block.now choice.revolutions choice.revolution choice.track choice.side) out.old }
{
    if !ended {
        return None;
    }
    Some(block_listing::list_block(
        block,
        u32::from(choice.revolutions),
        u32::from(choice.revolution),
        u32::from(choice.track),
        u32::from(choice.side),
        out,
    ))
}

// Reads the block and puts its listing at the front of `out`; the answer is the number of its bytes. There is none where the input cannot be read
// to its end, or has more bytes than the longest room: there is nothing to write then. A block of more revolutions than usual gets that at once.
fn list_input<R: Read>(from: &mut R, choice: Choice, out: &mut [u8]) -> Option<usize>
    ensures few { written_count result ≤ 65536 }
    ensures told { result ≢ Some 0 }
    ensures listing { ListedBlock 4194304 [] choice.revolutions choice.revolution choice.track choice.side out.old (written_count result) out.new }
{
    if USUAL_REVOLUTIONS < choice.revolutions {
        return list_longer(from, choice, &[], out);
    }
    list_usual(from, choice, out)
}

// An array so large is only made here, and lent whole: in the function that makes it, what stands in it is computed in a proof.
fn list_usual<R: Read>(from: &mut R, choice: Choice, out: &mut [u8]) -> Option<usize>
    ensures few { written_count result ≤ 65536 }
    ensures told { result ≢ Some 0 }
    ensures listing { ListedBlock 4194304 [] choice.revolutions choice.revolution choice.track choice.side out.old (written_count result) out.new }
{
    let mut block = [0u8; USUAL_ROOM];
    read_usual(from, choice, &mut block, out)
}

// Reads the block, as far as it fits the usual room; a longer one goes on in the longest.
fn read_usual<R: Read>(
    from: &mut R,
    choice: Choice,
    block: &mut [u8; USUAL_ROOM],
    out: &mut [u8],
) -> Option<usize>
    ensures few { written_count result ≤ 65536 }
    ensures told { result ≢ Some 0 }
    ensures listing { ListedBlock 4194304 [] choice.revolutions choice.revolution choice.track choice.side out.old (written_count result) out.new }
{
    let input = standard_input::read_on(from, block, 0);
    if input.count < block.len() {
        return list_read(choice, &block[..input.count], input.ended, out);
    }
    list_longer(from, choice, block, out)
}

// Lists a block of which these bytes, none or those that filled the usual room, are read.
fn list_longer<R: Read>(from: &mut R, choice: Choice, front: &[u8], out: &mut [u8]) -> Option<usize>
    requires { length front.now ≤ 4194304 }
    ensures few { written_count result ≤ 65536 }
    ensures told { result ≢ Some 0 }
    ensures listing { ListedBlock 4194304 front.now choice.revolutions choice.revolution choice.track choice.side out.old (written_count result) out.new }
{
    let mut block = [0u8; LONGEST_ROOM];
    read_longer(from, choice, front, &mut block, out)
}

// Reads on in the longest room. Where it is full, a further read tells whether the input ended there.
fn read_longer<R: Read>(
    from: &mut R,
    choice: Choice,
    front: &[u8],
    block: &mut [u8; LONGEST_ROOM],
    out: &mut [u8],
) -> Option<usize>
    requires { length front.now ≤ 4194304 }
    ensures few { written_count result ≤ 65536 }
    ensures told { result ≢ Some 0 }
    ensures listing { ListedBlock 4194304 front.now choice.revolutions choice.revolution choice.track choice.side out.old (written_count result) out.new }
{
    basis::copy(front, block);
    let input = standard_input::read_on(from, block, front.len());
    if input.count < block.len() {
        return list_read(choice, &block[..input.count], input.ended, out);
    }
    let further = standard_input::read_further(from);
    list_read(choice, block, further.ended, out)
}

fn main(rt: HostRuntime) {
    let mut first = system_calls::buffer();
    let mut second = system_calls::buffer();
    let mut third = system_calls::buffer();
    let mut fourth = system_calls::buffer();
    let Some(choice) = read_choice(&rt, &mut first, &mut second, &mut third, &mut fourth) else {
        let _ = rt.stderr().write_all(
            b"usage: scp_track REVOLUTIONS REVOLUTION TRACK SIDE < BLOCK\n",
        );
        return;
    };
    let mut out = system_calls::large_buffer();
    let _ = match list_input(&mut rt.stdin(), choice, &mut out) {
        Some(count) => rt.stdout().write_all(&out[..count]),
        None => rt.stderr().write_all(
            b"scp_track: the block cannot be read to its end, or is longer than 4,194,304 bytes\n",
        ),
    };
}

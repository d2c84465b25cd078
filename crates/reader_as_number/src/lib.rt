// The reader of a revolution's values as one number, for callers that cannot hold it (rule 12.24).
#![tactic(auto)]

ghost use Rattle.std.specs.Prelude.{◌≡◌, ◌<◌};
ghost use Rattle.reader_as_number.specs.Numbers.{held_number, held_from, number_of_reader, reader_of_number};

use revolution_portions::RevolutionReader;
use revolution_values::Unfinished;

// The number of a reader; that of one which no call leaves is a fresh reader's.
#[tactic(auto, unfolding(crate::specs::Numbers::number_of_reader))]
pub fn number_of_reader(reader: RevolutionReader) -> u32
    ensures { result ≡ number_of_reader reader }
{
    let used = reader.usable();
    held_number(used.unfinished.held) + 257 * (used.unfinished.zeros + 8 * used.timings)
}

// The reader of a number.
#[tactic(auto, unfolding(crate::specs::Numbers::reader_of_number))]
pub fn reader_of_number(number: u32) -> RevolutionReader
    ensures { result ≡ reader_of_number number }
{
    RevolutionReader {
        unfinished: Unfinished {
            held: held_from(number % 257),
            zeros: number / 257 % 8,
        },
        timings: number / 257 / 8,
    }
}

fn held_number(held: Option<u8>) -> u32
    ensures number { result ≡ held_number held }
    ensures small { result < 257 }
{
    match held {
        None => 0,
        Some(high) => u32::from(high) + 1,
    }
}

fn held_from(number: u32) -> Option<u8>
    requires { number < 257 }
    ensures { result ≡ held_from number }
{
    if number == 0 {
        return None;
    }
    Some((number - 1) as u8)
}

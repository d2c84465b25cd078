// The check word, by section 2 of the specification: four bytes at a turn by a table, and single bytes by shifts.
#![tactic(auto)]

mod table;

ghost use Rattle.std.specs.Prelude.{◌≡◌, ◌+◌, ◌*◌, ◌<◌, ◌≤◌, length, drop};
ghost use Rattle.crc.specs.CheckWord.{after_byte, check_word_from, check_word};
ghost use Rattle.crc.specs.PrivateContracts.{after_zeros, step_table};

use table::STEPS;

// What a check word starts from.
pub const START: u16 = 0xFFFF;

// From how many bytes on the table is worth making.
const FEW: usize = 24;

// The check word of bytes.
pub fn check_word(bytes: &[u8]) -> u16
    ensures { result ≡ check_word bytes.now }
{
    check_word_from(START, bytes)
}

// The check word after bytes, from a word that earlier bytes left. The table is made once for the call: indexed where it is a constant, it
// would be copied at each turn.
pub fn check_word_from(word: u16, bytes: &[u8]) -> u16
    ensures { result ≡ check_word_from word bytes.now }
{
    if bytes.len() < FEW {
        return after_rest(word, bytes);
    }
    let table = step_table();
    Steps { table: &table }.after_bytes(word, bytes)
}

// The check word after one byte more.
pub fn step(word: u16, byte: u8) -> u16
    ensures { result ≡ after_byte word byte }
{
    after_high((word / 256) ^ u16::from(byte)) ^ ((word % 256) * 256)
}

fn step_table() -> [u64; 256]
    ensures { result ≡ step_table }
{
    STEPS
}

// The table, as it is lent to the loop.
#[derive(Clone, Copy)]
struct Steps<'a> {
    table: &'a [u64; 256],
    ghost is: { table.now ≡ step_table },
}

impl<'a> Steps<'a> {
    // The check word after bytes, four at a turn.
    fn after_bytes(self, word: u16, bytes: &[u8]) -> u16
        ensures { result ≡ check_word_from word bytes.now }
    {
        let (fours, rest) = bytes.as_chunks::<4>();
        let mut so_far = word;
        for four in fours {
            let [a, b, c, d] = *four;
            so_far = self.after_four(so_far, a, b, c, d);
        }
        after_rest(so_far, rest)
    }

    // After four bytes. The step is linear over exclusive or, so what each byte does to the word can be looked up by itself: the first has three
    // more bytes after it, the last none.
    fn after_four(self, word: u16, a: u8, b: u8, c: u8, d: u8) -> u16
        ensures { result ≡ after_byte (after_byte (after_byte (after_byte word a) b) c) d }
    {
        let first = (word / 256) ^ u16::from(a);
        let second = (word % 256) ^ u16::from(b);
        (self.entry(first, 3) ^ self.entry(second, 2))
            ^ (self.entry(u16::from(c), 1) ^ self.entry(u16::from(d), 0))
    }

    // The check word whose high byte is `high` and whose low byte is 0, after a zero byte and `more` others.
    fn entry(self, high: u16, more: usize) -> u16
        requires { (high < 256) × (more < 4) }
        ensures { result ≡ after_zeros (more + 1) (high * 256) }
    {
        ((self.table[usize::from(high)] >> (16 * more)) % 65536) as u16
    }
}

// The check word after bytes, one by one.
fn after_rest(word: u16, bytes: &[u8]) -> u16
    ensures { result ≡ check_word_from word bytes.now }
{
    let mut so_far = word;
    for &byte in bytes {
        so_far = step(so_far, byte);
    }
    so_far
}

// The check word whose high byte is `high` and whose low byte is 0, after one zero byte, by shifts: the bits of 1021h.
fn after_high(high: u16) -> u16
    requires { high < 256 }
    ensures { result ≡ after_zeros 1 (high * 256) }
{
    let x = high ^ (high >> 4);
    (x << 12) ^ (x << 5) ^ x
}

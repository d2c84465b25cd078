// The controller's command Write Track on a list of bytes, by section 17 of the specification.
#![tactic(auto)]

ghost use Rattle.std.specs.Prelude.{◌≡◌, ◌<◌, ◌≤◌, ◌+◌, ◌*◌, ◌/◌, ◌%◌, length, take, drop, ◌++◌};
ghost use Rattle.basis.specs.Lists.{written_over};
ghost use Rattle.mfm.specs.Table.{cell_table};
ghost use Rattle.refusals.specs.RefusedCalls.{answer_of};
ghost use Rattle.track_writer.specs.WriteTrack.{written, pieces_of};
ghost use Rattle.track_writer.specs.PrivateContracts.{packed_for, next, two_bytes, pieces_for, UpToMost};
ghost use Rattle.track_writer.specs.Calls.{write_answer, written_after};

use refusals::Refusal;

// The most that a track may have, 131,072 cells, in pieces of sixteen.
pub const MOST_PIECES: usize = 8192;

// What a byte of the list depends on: the check word of the bytes before it, whether the data bit before it is a one, and whether the list has
// F5 before it.
#[derive(Clone, Copy)]
struct Writer {
    word: u16,
    odd: bool,
    run: bool,
}

impl Writer {
    // The writer after a byte of the list.
    #[tactic(auto, unfolding(crate::specs::PrivateContracts::next))]
    fn step(self, byte: u8) -> Writer
        ensures { result ≡ next self byte }
    {
        let word = self.word;
        match byte {
            0xF5 => {
                let before = if self.run { word } else { crc::START };
                Writer {
                    word: crc::step(before, 0xA1),
                    odd: true,
                    run: true,
                }
            }
            0xF6 => Writer {
                word: crc::step(word, 0xC2),
                odd: false,
                run: false,
            },
            0xF7 => {
                let [high, low] = word.to_be_bytes();
                Writer {
                    word: crc::step(crc::step(word, high), low),
                    odd: low % 2 == 1,
                    run: false,
                }
            }
            _ => Writer {
                word: crc::step(word, byte),
                odd: byte % 2 == 1,
                run: false,
            },
        }
    }

    // Puts the cells of a byte of the list at `at`, and gives the place behind them. The table is that by which bytes are coded.
    #[tactic(auto, unfolding(crate::specs::PrivateContracts::packed_for))]
    fn put_byte(self, table: &[u16; 512], byte: u8, cells: &mut [u8], at: usize) -> usize
        requires { (table.now ≡ cell_table) × (at + length (packed_for self byte) ≤ length cells.old) }
        ensures { (result ≡ at + length (packed_for self byte)) × (cells.new ≡ take at cells.old ++ (packed_for self byte ++ drop (at + length (packed_for self byte)) cells.old)) }
    {
        let odd = self.odd;
        match byte {
            0xF5 => put(cells, at, 0x4489),
            0xF6 => put(cells, at, 0x5224),
            0xF7 => {
                let [high, low] = self.word.to_be_bytes();
                put(cells, at, mfm::cells_by(table, odd, high));
                put(cells, at + 2, mfm::cells_by(table, high % 2 == 1, low));
                return at + 4;
            }
            _ => put(cells, at, mfm::cells_by(table, odd, byte)),
        }
        at + 2
    }
}

// Writes what `list` asks for to the front of `cells`, and counts the cells.
#[tactic(auto, unfolding(crate::specs::Calls::judged, crate::specs::WriteTrack::cell_count, refusals::specs::RefusedCalls::buffer_after))]
pub fn write_track(list: &[u8], cells: &mut [u8]) -> Result<usize, Refusal>
    ensures answer { answer_of result ≡ write_answer list.now cells.old }
    ensures buffer { cells.new ≡ written_after list.now cells.old }
{
    let pieces = count_pieces(list);
    if MOST_PIECES < pieces {
        return Err(Refusal::TooLongATrack);
    }
    let needed = 2 * pieces;
    if cells.len() < needed {
        return Err(Refusal::NoRoom(needed));
    }
    write_list(list, cells);
    Ok(16 * pieces)
}

// The pieces that a list gives. It stops as soon as there are too many, so that no list is too long to count.
fn count_pieces(list: &[u8]) -> usize
    ensures { UpToMost (length (pieces_of list.now)) result }
{
    let mut count: usize = 0;
    for &byte in list {
        if MOST_PIECES < count {
            return count;
        }
        count += pieces_for(byte);
    }
    count
}

fn pieces_for(byte: u8) -> usize
    ensures { (result ≡ pieces_for byte) × (result ≤ 2) }
{
    if byte == 0xF7 { 2 } else { 1 }
}

fn write_list(list: &[u8], cells: &mut [u8])
    requires { length (written list.now) ≤ length cells.old }
    ensures { cells.new ≡ written_over (written list.now) cells.old }
{
    let table = mfm::cell_table();
    let mut writer = Writer {
        word: crc::START,
        odd: false,
        run: false,
    };
    let mut at: usize = 0;
    for &byte in list {
        at = writer.put_byte(&table, byte, cells, at);
        writer = writer.step(byte);
    }
}

// Puts sixteen cells at a place, as two bytes.
fn put(cells: &mut [u8], at: usize, word: u16)
    requires { at + 2 ≤ length cells.old }
    ensures { cells.new ≡ take at cells.old ++ (two_bytes word ++ drop (at + 2) cells.old) }
{
    cells[at..at + 2].copy_from_slice(&word.to_be_bytes());
}

// MFM coding and decoding.
#![tactic(auto)]

mod table;

ghost use Rattle.std.specs.Prelude.{◌≡◌, cond, ℕ, ◌<◌, ◌≤◌, ◌*◌, ◌+◌, ◌/◌, ◌%◌, ◌^◌, length};
ghost use Rattle.basis.specs.Lists.{written_over};
ghost use Rattle.refusals.specs.RefusedCalls.{answer_of};
ghost use Rattle.cells.specs.CellsAndBytes.{cell, word};
ghost use Rattle.mfm.specs.Coding.{byte_cells, data_cell, byte_on, encoded, decoded};
ghost use Rattle.mfm.specs.PrivateContracts.{coded_by};
ghost use Rattle.mfm.specs.Table.{cell_table, entry_of};
ghost use Rattle.mfm.specs.Calls.{coding_answer, decoding_answer, encoded_after, decoded_after};

use cells::Cells;
use refusals::Refusal;
use table::CELLS;

// The most bytes that one call codes, and the most bytes of cells that one call decodes.
pub const MOST_TO_CODE: usize = 8192;

pub const MOST_TO_DECODE: usize = 16384;

// Coding: two bytes of cells for each byte, at the front of `cells`; they are counted. `before` is the data bit before the bytes.
#[tactic(auto, unfolding(crate::specs::Calls::judged, refusals::specs::RefusedCalls::buffer_after))]
pub fn encode(bytes: &[u8], before: bool, cells: &mut [u8]) -> Result<usize, Refusal>
    ensures answer { answer_of result ≡ coding_answer bytes.now cells.old }
    ensures buffer { cells.new ≡ encoded_after (cond before 1 0) bytes.now cells.old }
{
    let given = bytes.len();
    if MOST_TO_CODE < given {
        return Err(Refusal::TooManyBytes(given));
    }
    let needed = 2 * given;
    if cells.len() < needed {
        return Err(Refusal::NoRoomForBytes(needed));
    }
    write_cells(bytes, before, cells);
    Ok(needed)
}

// Decoding: each two bytes of `cells` make a byte, at the front of `bytes`; a last one that stands alone is passed over. The bytes written
// are counted.
#[tactic(auto, unfolding(crate::specs::Calls::judged, refusals::specs::RefusedCalls::buffer_after))]
pub fn decode(cells: &[u8], bytes: &mut [u8]) -> Result<usize, Refusal>
    ensures answer { answer_of result ≡ decoding_answer cells.now bytes.old }
    ensures buffer { bytes.new ≡ decoded_after cells.now bytes.old }
{
    let given = cells.len();
    if MOST_TO_DECODE < given {
        return Err(Refusal::TooManyBytes(given));
    }
    let needed = given / 2;
    if bytes.len() < needed {
        return Err(Refusal::NoRoomForBytes(needed));
    }
    write_bytes(cells, bytes);
    Ok(needed)
}

// The sixteen cells of a byte after a data bit, as a number.
pub fn byte_cells(before: bool, byte: u8) -> u16
    ensures { result ≡ byte_cells (cond before 1 0) byte }
{
    let table = cell_table();
    cells_by(&table, before, byte)
}

// What a lent table has for a byte after a data bit. A loop makes the table once and asks here: where each byte made it, it would be copied for each.
pub fn cells_by(table: &[u16; 512], before: bool, byte: u8) -> u16
    ensures { result ≡ entry_of table.now (cond before 1 0) byte }
{
    entry(table, u8::from(before), byte)
}

// The table by which bytes are coded: entry 256 * bit + byte has the cells of a byte after a data bit.
pub fn cell_table() -> [u16; 512]
    ensures { result ≡ cell_table }
{
    CELLS
}

// The byte whose sixteen cells start at p of a track of n cells, counted on past n: its data cells.
pub fn byte_on(cells: Cells, p: usize) -> u8
    ensures { result ≡ byte_on (cell cells.entry.bytes.now cells.entry.count) p }
{
    let word = sixteen_cells(cells, p);
    nibble((word / 256) as u8) * 16 + nibble((word % 256) as u8)
}

// The 32 data cells of 64 cells, as a number: every second cell, moved together twice as many at a time.
pub fn data_cells(cells: u64) -> u64
    ensures { (f : ℕ → ℕ) (p : ℕ) → ((i : ℕ) → f i < 2) → cells ≡ word f 64 p → result ≡ word (data_cell f p) 32 0 }
{
    let ones = cells & 0x5555_5555_5555_5555;
    let twos = (ones | (ones >> 1)) & 0x3333_3333_3333_3333;
    let fours = (twos | (twos >> 2)) & 0x0F0F_0F0F_0F0F_0F0F;
    let eights = (fours | (fours >> 4)) & 0x00FF_00FF_00FF_00FF;
    let sixteens = (eights | (eights >> 8)) & 0x0000_FFFF_0000_FFFF;
    (sixteens | (sixteens >> 16)) & 0xFFFF_FFFF
}

// Codes all of `bytes` into the front of `cells`. The table is made once for the call: indexed where it is a constant, it would be copied for
// each byte.
fn write_cells(bytes: &[u8], before: bool, cells: &mut [u8])
    requires { 2 * length bytes.now ≤ length cells.old }
    ensures { cells.new ≡ written_over (encoded (cond before 1 0) bytes.now) cells.old }
{
    let table = cell_table();
    write_by_table(&table, bytes, before, cells);
}

// The same by a table that is lent.
fn write_by_table(table: &[u16; 512], bytes: &[u8], before: bool, cells: &mut [u8])
    requires { 2 * length bytes.now ≤ length cells.old }
    ensures { cells.new ≡ written_over (coded_by table.now (cond before 1 0) bytes.now) cells.old }
{
    let mut last = u8::from(before);
    for (i, &byte) in bytes.iter().enumerate() {
        let [high, low] = entry(table, last, byte).to_be_bytes();
        cells[2 * i] = high;
        cells[2 * i + 1] = low;
        last = byte;
    }
}

// The table's entry of a byte after the lowest bit of the last one.
fn entry(table: &[u16; 512], last: u8, byte: u8) -> u16
    ensures { result ≡ entry_of table.now (last % 2) byte }
{
    table[usize::from(last % 2) * 256 + usize::from(byte)]
}

// Decodes every two bytes of `cells` into the front of `bytes`.
fn write_bytes(cells: &[u8], bytes: &mut [u8])
    requires { length cells.now / 2 ≤ length bytes.old }
    ensures { bytes.new ≡ written_over (decoded cells.now) bytes.old }
{
    for i in 0..cells.len() / 2 {
        bytes[i] = nibble(cells[2 * i]) * 16 + nibble(cells[2 * i + 1]);
    }
}

// The sixteen cells from p, as a number: out of three bytes where they lie before the track's end, else cell by cell.
fn sixteen_cells(cells: Cells, p: usize) -> u64
    ensures { (result ≡ word (cell cells.entry.bytes.now cells.entry.count) 16 p) × (result < 65536) }
{
    let bytes = cells.bytes;
    let k = p / 8;
    if p < cells.count && 16 <= cells.count - p && k + 2 < bytes.len() {
        let three = u64::from(bytes[k]) * 65536
            + u64::from(bytes[k + 1]) * 256
            + u64::from(bytes[k + 2]);
        return (three >> (8 - p % 8)) % 65536;
    }
    cells.word(p, 16)
}

// The four data cells of a byte of cells.
fn nibble(cells: u8) -> u8
    ensures { (result ≡ cells / 2 ^ 6 % 2 * 8 + cells / 2 ^ 4 % 2 * 4 + cells / 2 ^ 2 % 2 * 2 + cells % 2) × (result < 16) }
{
    (cells >> 6) % 2 * 8 + (cells >> 4) % 2 * 4 + (cells >> 2) % 2 * 2 + cells % 2
}

// The sectors of a track as records: marks, IDs, data, and their checks, in either density.
#![tactic(auto)]

ghost use Rattle.std.specs.Prelude.{◌≡◌, ℕ, cond, [], ◌+◌, ◌-◌, ◌<◌, ◌≤◌, ltb, Some};
ghost use Rattle.basis.specs.Search.{least};
ghost use Rattle.crc.specs.CheckWord.{check_word_from};
ghost use Rattle.layouts.specs.Layouts.{layout_of};
ghost use Rattle.layouts.specs.declared.Density.TheVariants.{Double};
ghost use Rattle.layouts.specs.PrivateContracts.{Sound};
ghost use Rattle.sector_records.specs.Marks.{mark_of, id_mark_at, data_mark_at};
ghost use Rattle.sector_records.specs.Maps.{TrackMaps};
ghost use Rattle.sector_records.specs.PrivateContracts.{cells_on, data_place_of, MarkMap, marks-prop};
ghost use Rattle.sector_records.specs.Sectors.{bytes_from, check_bytes, check_good, length_of, id_byte, sector_at, end_of_data, no_sector, sectors_of, kept};

use cell_words::WORDS;
use cells::Cells;
use layouts::{Density, Layout, layout_of};

// The most cells of a track, and the most sectors that it may have.
pub const MOST_CELLS: usize = 131072;

pub const MOST_SECTORS: usize = 64;

// The cells of a byte, and of two check bytes.
pub const BYTE_LENGTH: usize = 16;

pub const CHECK_LENGTH: usize = 32;

// A sector's record (rule 6.16). Places are cells; that of the data mark may be past the track's end.
#[derive(Clone, Copy, Debug)]
pub struct Sector {
    // Where its ID mark stands, and the mark's byte.
    pub place: u32,
    pub mark: u8,
    pub track: u8,
    pub side: u8,
    pub number: u8,
    pub size_code: u8,
    pub id_check_good: bool,
    // Where its data mark stands, and the mark's byte; 0 where there is none.
    pub data_place: u32,
    pub data_mark: u8,
    // How many data bytes there are, and their check. It is bad where there are none.
    pub data_length: u32,
    pub data_check_good: bool,
    // Where the data with its check bytes ends, perhaps past the track's end; 0 where there is none.
    pub data_end: u32,
    // 2 for MFM, 1 for FM.
    pub density: u8,
}

// The sectors of a track: how many there are, and the first 64 of them.
#[derive(Clone, Copy)]
pub struct Sectors {
    pub all: [Sector; 64],
    pub count: usize,
}

// The sectors of a track; none where it has more cells than a track may have. The maps by which they are found stand in two
// lent arrays then, for what else looks at the cells: those of the ones and of the syncs. A track with too many cells has none.
pub fn sectors_with_maps(
    density: Density,
    cells: Cells,
    words: &mut [u64; WORDS],
    syncs: &mut [u64; WORDS],
) -> Sectors
    ensures sectors { result ≡ kept (cond (ltb 131072 cells.entry.count) [] (sectors_of (layout_of density) cells.entry.bytes.now cells.entry.count)) }
    ensures maps { cells.entry.count ≤ 131072 → TrackMaps (layout_of density) cells.entry.bytes.now cells.entry.count words.new syncs.new }
{
    if MOST_CELLS < cells.count {
        return no_sectors();
    }
    make_maps(density, cells, words, syncs);
    list(density, cells, words, syncs)
}

// The data marks of single density, of 16 cells each.
const WORD_CELLS: usize = 16;

const DATA_WORD: u64 = 0xF56F;

const DELETED_DATA_WORD: u64 = 0xF56A;

// The cells that the three syncs of a mark of double density take.
const SYNC_CELLS: usize = 48;

// Where the second data cell of a mark's byte stands from the mark on. It is a one in the byte of each mark that is looked for, and not in A1: so a
// long row of syncs has no marks to look at.
const SECOND_DATA_CELL: usize = 51;

// How many size codes there are to the controller.
const SIZE_CODES: u8 = 4;

// The bytes of an ID that its check covers, without the mark.
const ID_BYTES: usize = 4;

// The bytes of marks of double density.
const FIRST_ID_MARK: u8 = 0xFC;

const LAST_ID_MARK: u8 = 0xFF;

const FIRST_DATA_MARK: u8 = 0xF8;

const LAST_DATA_MARK: u8 = 0xFB;

// Makes the two maps of a track. They go on past its end: that of the syncs by 64 words, since data may begin there; that of the ones goes further, since
// each map that is made of it comes out shorter.
fn make_maps(density: Density, cells: Cells, words: &mut [u64; WORDS], syncs: &mut [u64; WORDS])
    requires { cells.count ≤ 131072 }
    ensures { TrackMaps (layout_of density) cells.entry.bytes.now cells.entry.count words.new syncs.new }
{
    // What the lent arrays held is not read.
    *words = [0; WORDS];
    *syncs = [0; WORDS];
    let count = cells.count;
    cell_words::load(cells, words, count / 64 + 68);
    let layout = layout_of(density);
    cell_words::word_map(words, layout.sync, syncs, count / 64 + 64);
}

// The sectors of a track, out of its two maps. In single density that of the syncs is the map of the ID marks.
fn list(density: Density, cells: Cells, words: &[u64; WORDS], syncs: &[u64; WORDS]) -> Sectors
    requires { (cells.count ≤ 131072) × TrackMaps (layout_of density) cells.bytes.now cells.count words.now syncs.now }
    ensures { result ≡ kept (sectors_of (layout_of density) cells.entry.bytes.now cells.entry.count) }
{
    let layout = layout_of(density);
    match density {
        Density::Single => {
            let marked = Marked {
                density,
                layout,
                cells,
                map: syncs,
            };
            marked.sectors()
        }
        Density::Double => {
            let count = cells.count;
            let mut map = [0u64; WORDS];
            cell_words::thrice_map(syncs, &mut map, count / 64 + 63);
            cell_words::keep_map(words, SECOND_DATA_CELL, true, &mut map, count / 64 + 63);
            let marked = Marked {
                density,
                layout,
                cells,
                map: &map,
            };
            marked.sectors()
        }
    }
}

// A track with the map of the marks that may be those of an ID or of data; in single density it is the map of the ID marks.
#[derive(Drop)]
struct Marked<'a> {
    density: Density,
    layout: Layout,
    cells: Cells<'a>,
    map: &'a [u64; WORDS],
    ghost is_layout: { layout ≡ layout_of density },
    ghost sound: { Sound layout },
    ghost is_map: { MarkMap layout (cells_on cells) cells.count map.now } by { marks-prop layout (cells_on cells) cells.count map.now },
}

// The bounds that these methods ask for keep their sums from overflowing. A track has at most 131,072 places, a data mark stands at most the reach past
// them, and data has at most 1,024 bytes.
impl<'a> Marked<'a> {
    // The sectors of the track, in one pass from ID mark to ID mark. Past the first 64 they are only counted, and no records are made of them. The struct
    // is changed in place: a function that took it and gave it back would copy all its records.
    fn sectors(&self) -> Sectors
        ensures { result ≡ kept (sectors_of self.now.layout self.now.cells.bytes.now self.now.cells.count) }
    {
        let mut sectors = no_sectors();
        let mut p = self.find_id_mark(0);
        // No `for`: the next place comes from a search.
        while p < self.cells.count {
            if sectors.count < MOST_SECTORS {
                sectors.all[sectors.count] = self.sector_at(p);
            }
            sectors.count += 1;
            p = self.find_id_mark(p + 1);
        }
        sectors
    }

    // The record of the ID mark at p.
    fn sector_at(&self, p: usize) -> Sector
        requires { p < self.now.cells.count }
        ensures { result ≡ sector_at self.now.layout (cells_on self.now.cells) p }
    {
        let size_code = self.id_byte(p, 3);
        let without_data = Sector {
            place: p as u32,
            mark: mfm::byte_on(self.cells, p + self.layout.byte_place),
            track: self.id_byte(p, 0),
            side: self.id_byte(p, 1),
            number: self.id_byte(p, 2),
            size_code,
            id_check_good: self.check_good(p, ID_BYTES),
            density: self.layout.density,
            ..no_sector()
        };
        match self.find_data(p) {
            None => without_data,
            Some(q) => {
                let length = length_of(size_code);
                Sector {
                    data_place: q as u32,
                    data_mark: mfm::byte_on(self.cells, q + self.layout.byte_place),
                    data_length: length,
                    data_check_good: self.check_good(q, length as usize),
                    data_end: self.data_end(q, length),
                    ..without_data
                }
            }
        }
    }

    // Byte i after the ID mark at p.
    fn id_byte(&self, p: usize, i: usize) -> u8
        requires { (p < 131072) × (i < 4) }
        ensures { result ≡ id_byte self.now.layout.mark_length (cells_on self.now.cells) p i }
    {
        mfm::byte_on(self.cells, p + self.layout.mark_length + BYTE_LENGTH * i)
    }

    // Where data of so many bytes ends whose mark stands at q.
    fn data_end(&self, q: usize, length: u32) -> u32
        requires { (q < 200000) × (length ≤ 1024) }
        ensures { result ≡ end_of_data self.now.layout.mark_length q length }
    {
        (q + self.layout.mark_length + BYTE_LENGTH * (length as usize) + CHECK_LENGTH) as u32
    }

    // Is the check good of the field whose mark stands at p, with k bytes after the mark byte?
    fn check_good(&self, p: usize, k: usize) -> bool
        requires { (p < 200000) × (k ≤ 1024) }
        ensures { result ≡ check_good self.now.layout (cells_on self.now.cells) p k }
    {
        let place = p + self.layout.byte_place;
        let end = p + self.layout.mark_length + BYTE_LENGTH * k;
        check_word(self.layout.check_start, self.cells, place, k + 1)
            == check_bytes(self.cells, end)
    }

    // Where the data mark of the ID mark at p stands, where there is one within reach.
    fn find_data(&self, p: usize) -> Option<usize>
        requires { p < self.now.cells.count }
        ensures place { result ≡ data_place_of self.now.layout (cells_on self.now.cells) p }
        ensures near { (q : ℕ) → result ≡ Some q → q < 200000 }
    {
        let from = p + self.layout.id_length;
        let last = p + self.layout.reach;
        let q = self.find_data_mark(from, last + 1);
        if q <= last { Some(q) } else { None }
    }

    // The least place from `from` on of an ID mark; the number of cells where there is none. Here, in the next function and in `list` the densities part.
    fn find_id_mark(&self, from: usize) -> usize
        requires { from ≤ self.now.cells.count }
        ensures { result ≡ least (id_mark_at self.now.layout (cells_on self.now.cells)) (self.now.cells.count - from) from }
    {
        let to = self.cells.count;
        match self.density {
            Density::Single => cell_words::least_in(self.map, from, to),
            Density::Double => self.find_mark(FIRST_ID_MARK, LAST_ID_MARK, from, to),
        }
    }

    // The least place from `from` and before `to` of a data mark; `to` where there is none. Of the two words of single density, the second is looked for
    // before the first that was found.
    fn find_data_mark(&self, from: usize, to: usize) -> usize
        requires { (from ≤ to) × (to ≤ self.now.cells.count + 1000) }
        ensures { result ≡ least (data_mark_at self.now.layout (cells_on self.now.cells)) (to - from) from }
    {
        match self.density {
            Density::Single => {
                let data = self.cells.find_word(DATA_WORD, WORD_CELLS, from, to);
                self.cells
                    .find_word(DELETED_DATA_WORD, WORD_CELLS, from, data)
            }
            Density::Double => self.find_mark(FIRST_DATA_MARK, LAST_DATA_MARK, from, to),
        }
    }

    // The least place from `from` and before `to` of a mark of double density whose byte lies from `low` to `high`; `to` where there is none.
    fn find_mark(&self, low: u8, high: u8, from: usize, to: usize) -> usize
        requires { (self.now.density ≡ Double) × (from ≤ to) × (to ≤ self.now.cells.count + 1000) × (0xC0 ≤ low) }
        ensures { result ≡ least (mark_of (cells_on self.now.cells) low high) (to - from) from }
    {
        let mut p = cell_words::least_in(self.map, from, to);
        // No `for`: the next place comes from a search.
        while p < to {
            let byte = mfm::byte_on(self.cells, p + SYNC_CELLS);
            if (low <= byte) & (byte <= high) {
                return p;
            }
            p = cell_words::least_in(self.map, p + 1, to);
        }
        to
    }
}

// No sectors: their number is 0, and each record is all zeros.
pub fn no_sectors() -> Sectors
    ensures { result ≡ kept [] }
{
    Sectors {
        all: [no_sector(); 64],
        count: 0,
    }
}

// A record that is all zeros.
pub fn no_sector() -> Sector
    ensures { result ≡ no_sector }
{
    Sector {
        place: 0,
        mark: 0,
        track: 0,
        side: 0,
        number: 0,
        size_code: 0,
        id_check_good: false,
        data_place: 0,
        data_mark: 0,
        data_length: 0,
        data_check_good: false,
        data_end: 0,
        density: 0,
    }
}

// The data length of a size code, of which the controller sees the two low bits.
#[tactic(auto, unfolding(crate::specs::Sectors::length_of))]
fn length_of(code: u8) -> u32
    ensures { (result ≡ length_of code) × (result ≤ 1024) }
{
    match code % SIZE_CODES {
        0 => 128,
        1 => 256,
        2 => 512,
        _ => 1024,
    }
}

// The check word of the k bytes from p on, where it was `start` before them. They are decoded four at a turn.
fn check_word(start: u16, cells: Cells, p: usize, k: usize) -> u16
    requires { (p ≤ 200048) × (k ≤ 1025) }
    ensures { result ≡ check_word_from start (bytes_from (cells_on cells.entry) p k) }
{
    let mut decoded = [0u8; 1028];
    for i in 0..(k + 3) / 4 {
        let four = mfm::data_cells(cell_words::word_from(
            cells,
            p + 4 * BYTE_LENGTH * i,
        )).to_be_bytes();
        decoded[4 * i] = four[4];
        decoded[4 * i + 1] = four[5];
        decoded[4 * i + 2] = four[6];
        decoded[4 * i + 3] = four[7];
    }
    crc::check_word_from(start, &decoded[..k])
}

// The two check bytes from p on, as a word.
#[tactic(auto, unfolding(crate::specs::Sectors::check_bytes))]
fn check_bytes(cells: Cells, p: usize) -> u16
    requires { p ≤ 300000 }
    ensures { result ≡ check_bytes (cells_on cells.entry) p }
{
    u16::from_be_bytes([mfm::byte_on(cells, p), mfm::byte_on(cells, p + BYTE_LENGTH)])
}

// The calls on the sectors of a track: the sectors, the sector by index, and reading out.
#![tactic(auto)]

ghost use Rattle.std.specs.Prelude.{◌≡◌, ◌≤◌, Ok, length};
ghost use Rattle.sector_records.specs.declared.Sectors.{Sectors};
ghost use Rattle.cells.specs.CellsAndBytes.{cell};
ghost use Rattle.refusals.specs.RefusedCalls.{answer_of, answer_by, buffer_after};
ghost use Rattle.layouts.specs.Layouts.{layout_of};
ghost use Rattle.sector_records.specs.Maps.{TrackMaps};
ghost use Rattle.sector_records.specs.Sectors.{bytes_from, sectors_of, data_bytes};
ghost use Rattle.sectors.specs.Calls.{sectors_answer, sectors_beside, sectors_given, index_answer, record_beside, record_given, sector_of, read_out_answer, data_judged, data_answer, data_after};

use cell_words::WORDS;
pub use cells::Cells;
pub use layouts::Density;
use layouts::layout_of;
use refusals::Refusal;
use sector_records::{BYTE_LENGTH, MOST_CELLS, MOST_SECTORS};
pub use sector_records::{Sector, Sectors};

// The last track and side of a drive.
pub const LAST_TRACK: u32 = 83;

pub const LAST_SIDE: u32 = 1;

// The fewest cells of a track.
pub const FEWEST_CELLS: usize = 20000;

// A track: its cells, and the track and the side of the drive.
#[derive(Clone, Copy, Debug)]
pub struct Track<'a> {
    pub cells: Cells<'a>,
    pub track: u32,
    pub side: u32,
}

// A sector by index and the number of sectors.
#[derive(Clone, Copy, Debug)]
pub struct Indexed {
    pub sector: Sector,
    pub count: usize,
}

// What reading out gives: the number of data bytes and whether their check is good.
#[derive(Clone, Copy, Debug)]
pub struct ReadOut {
    pub size: usize,
    pub check_good: bool,
}

impl<'a> Track<'a> {
    // The sectors of a track of either density (rules 9.3, 9.41).
    pub fn sectors(self, density: Density) -> Result<Sectors, Refusal>
        ensures answer { answer_by (λ s. s.count) result ≡ sectors_answer (layout_of density) self.entry.cells.bytes.now self.entry.cells.count self.entry.track self.entry.side }
        ensures sectors { sectors_given result ≡ sectors_beside (sectors_answer (layout_of density) self.entry.cells.bytes.now self.entry.cells.count self.entry.track self.entry.side) (sectors_of (layout_of density) self.entry.cells.bytes.now self.entry.cells.count) }
    {
        let mut words = [0u64; WORDS];
        let mut syncs = [0u64; WORDS];
        self.sectors_with_maps(density, &mut words, &mut syncs)
    }

    // The same. Where the call is not refused, the maps of the track's ones and syncs stand in two lent arrays then, for what else looks at its cells.
    #[tactic(auto, unfolding(crate::specs::Calls::track_judged, crate::specs::Calls::count_judged, crate::specs::Calls::sectors_answer, crate::specs::Calls::sectors_beside), using(crate::proofs::Calls::many_sectors, crate::proofs::Calls::none_beside, crate::proofs::Calls::few_sectors, crate::proofs::Calls::all_beside))]
    pub fn sectors_with_maps(
        self,
        density: Density,
        words: &mut [u64; WORDS],
        syncs: &mut [u64; WORDS],
    ) -> Result<Sectors, Refusal>
        ensures answer { answer_by (λ s. s.count) result ≡ sectors_answer (layout_of density) self.entry.cells.bytes.now self.entry.cells.count self.entry.track self.entry.side }
        ensures sectors { sectors_given result ≡ sectors_beside (sectors_answer (layout_of density) self.entry.cells.bytes.now self.entry.cells.count self.entry.track self.entry.side) (sectors_of (layout_of density) self.entry.cells.bytes.now self.entry.cells.count) }
        ensures maps { (sectors : Sectors) → result ≡ Ok sectors → TrackMaps (layout_of density) self.entry.cells.bytes.now self.entry.cells.count words.new syncs.new }
    {
        if (LAST_TRACK < self.track) | (LAST_SIDE < self.side) {
            return Err(Refusal::TrackOrSide);
        }
        let count = self.cells.count;
        if (count < FEWEST_CELLS) | (MOST_CELLS < count) {
            return Err(Refusal::CellCount(count));
        }
        let needed = (count + 7) / 8;
        if self.cells.bytes.len() < needed {
            return Err(Refusal::TooFewBytes(needed));
        }
        let sectors = sector_records::sectors_with_maps(density, self.cells, words, syncs);
        if MOST_SECTORS < sectors.count {
            return Err(Refusal::TooManySectors(sectors.count));
        }
        Ok(sectors)
    }

    // Sector `index` of a track of either density, from 0, with the number of its sectors (rules 9.2, 9.42).
    pub fn sector(self, density: Density, index: usize) -> Result<Indexed, Refusal>
        ensures answer { answer_by (λ s. s.count) result ≡ index_answer (layout_of density) self.entry.cells.bytes.now self.entry.cells.count self.entry.track self.entry.side index }
        ensures sector { record_given result ≡ record_beside (index_answer (layout_of density) self.entry.cells.bytes.now self.entry.cells.count self.entry.track self.entry.side index) (sector_of (layout_of density) self.entry.cells.bytes.now self.entry.cells.count index) }
    {
        let sectors = self.sectors(density)?;
        let count = sectors.count;
        if count <= index {
            return Err(Refusal::NoSuchSector(count));
        }
        Ok(Indexed {
            sector: sectors.all[index],
            count,
        })
    }

    // Reads out sector `index` of a track of either density: its data bytes go to the front of the buffer (rules 9.4, 9.43).
    pub fn read_out(
        self,
        density: Density,
        index: usize,
        buffer: &mut [u8],
    ) -> Result<ReadOut, Refusal>
        ensures answer { read_out_answer result ≡ data_answer (layout_of density) self.entry.cells.bytes.now self.entry.cells.count self.entry.track self.entry.side index (length buffer.old) }
        ensures buffer { buffer.new ≡ data_after (layout_of density) self.entry.cells.bytes.now self.entry.cells.count self.entry.track self.entry.side index buffer.old }
    {
        let found = self.sector(density, index)?;
        read_sector(density, self.cells, found.sector, buffer)
    }
}

// Reads out a sector of the track.
#[tactic(auto, unfolding(crate::specs::Calls::data_judged, refusals::specs::RefusedCalls::buffer_after, sector_records::specs::Sectors::data_bytes))]
fn read_sector(
    density: Density,
    cells: Cells,
    sector: Sector,
    buffer: &mut [u8],
) -> Result<ReadOut, Refusal>
    ensures answer { read_out_answer result ≡ data_judged sector (length buffer.old) }
    ensures buffer { buffer.new ≡ buffer_after (data_judged sector (length buffer.old)) (data_bytes (layout_of density).mark_length (cell cells.entry.bytes.now cells.entry.count) sector) buffer.old }
{
    if sector.data_mark == 0 {
        return Err(Refusal::NoData);
    }
    let size = sector.data_length as usize;
    if buffer.len() < size {
        return Err(Refusal::NoRoomForBytes(size));
    }
    let mark = layout_of(density).mark_length;
    write_data(
        cells,
        sector.data_place as usize + mark,
        &mut buffer[..size],
    );
    Ok(ReadOut {
        size,
        check_good: sector.data_check_good,
    })
}

// Decodes bytes from cell p on into all of the buffer. The place comes from a number of 32 bits, and so does the number of bytes.
fn write_data(cells: Cells, p: usize, buffer: &mut [u8])
    requires { (p ≤ 0x1_0000_0040) × (length buffer.old ≤ 0x1_0000_0000) }
    ensures { buffer.new ≡ bytes_from (cell cells.entry.bytes.now cells.entry.count) p (length buffer.old) }
{
    for i in 0..buffer.len() {
        buffer[i] = mfm::byte_on(cells, p + BYTE_LENGTH * i);
    }
}

// The table of findings (rules 7.1 to 7.21): on the track's numbers, on one sector's record, on one record beside another, and on what was
// counted on the cells. A kind is given by its place in its group, from 0: a number, since the clauses speak of any k.
#![tactic(auto)]

ghost use Rattle.std.specs.Prelude.{◌≡◌, get_or};
ghost use Rattle.finding_rules.specs.Rules.{track_rows, id_rows, data_rows, gap_rows, no_row, is_in_data, starts_in_data};

use cell_patterns::Gaps;
use layouts::Layout;
use sector_records::Sector;

// A row of the table: whether the rule holds, and if so at which place and with which detail. No Option: the rows of specs/Rules have a place and
// a detail also where the rule does not hold.
#[derive(Clone, Copy, Debug)]
pub struct Row {
    pub holds: bool,
    pub place: usize,
    pub detail: usize,
}

// A row that finds nothing, for numbers that are no kind.
const NOTHING: Row = Row {
    holds: false,
    place: 0,
    detail: 0,
};

// The last track of a usual disk, and the first after it.
const LAST_USUAL_TRACK: u32 = 79;

const FIRST_EXTRA_TRACK: u32 = 80;

// Sector numbers that the controller takes for something else.
const FIRST_INVALID_NUMBER: u8 = 245;

const LAST_INVALID_NUMBER: u8 = 247;

// The last track, side and size code that an ID can rightly have.
const LAST_ID_TRACK: u8 = 83;

const LAST_ID_SIDE: u8 = 1;

const LAST_SIZE_CODE: u8 = 3;

// The usual marks: of an ID, of data, and of deleted data.
const ID_MARK: u8 = 0xFE;

const DATA_MARK: u8 = 0xFB;

const DELETED_DATA_MARK: u8 = 0xF8;

// From how many zeros on a run is reported.
const LONG_RUN: usize = 1000;

// Kinds 1 to 5, on the numbers of the track.
#[tactic(auto, unfolding(crate::specs::Rules::track_rows))]
pub fn track_rule(layout: Layout, k: usize, n: u32, sectors: u32, track: u32) -> Row
    ensures { result ≡ get_or (track_rows layout n sectors track) k no_row }
{
    match k {
        // LGT
        0 => Row {
            holds: layout.most_cells < n,
            place: 0,
            detail: n as usize,
        },
        // SHT
        1 => Row {
            holds: n < layout.fewest_cells,
            place: 0,
            detail: n as usize,
        },
        // NOS
        2 => Row {
            holds: (sectors < layout.fewest_sectors) | (layout.most_sectors < sectors),
            place: 0,
            detail: sectors as usize,
        },
        // TNF
        3 => Row {
            holds: (sectors == 0) & (track <= LAST_USUAL_TRACK),
            place: 0,
            detail: 0,
        },
        // EXT
        4 => Row {
            holds: (0 < sectors) & (FIRST_EXTRA_TRACK <= track),
            place: 0,
            detail: sectors as usize,
        },
        _ => NOTHING,
    }
}

// Kinds 7 to 12, on a sector's ID and the marks.
#[tactic(auto, unfolding(crate::specs::Rules::id_rows))]
pub fn id_rule(layout: Layout, k: usize, track: u32, s: Sector) -> Row
    ensures { result ≡ get_or (id_rows layout track s) k no_row }
{
    match k {
        // ISN
        0 => Row {
            holds: (FIRST_INVALID_NUMBER <= s.number) & (s.number <= LAST_INVALID_NUMBER),
            place: s.place as usize,
            detail: usize::from(s.number),
        },
        // ITN
        1 => Row {
            holds: u32::from(s.track) != track,
            place: s.place as usize,
            detail: usize::from(s.track),
        },
        // IIF
        2 => Row {
            holds: (LAST_ID_TRACK < s.track)
                | ((LAST_ID_SIDE < s.side) | (LAST_SIZE_CODE < s.size_code)),
            place: s.place as usize,
            detail: usize::from(s.side),
        },
        // SSZ
        3 => Row {
            holds: (s.size_code != layout.size_code) & (s.size_code != layout.other_size_code),
            place: s.place as usize,
            detail: usize::from(s.size_code),
        },
        // NSI
        4 => Row {
            holds: s.mark != ID_MARK,
            place: s.place as usize,
            detail: usize::from(s.mark),
        },
        // NSD
        5 => Row {
            holds: (s.data_mark != 0)
                & ((s.data_mark != DELETED_DATA_MARK) & (s.data_mark != DATA_MARK)),
            place: s.place as usize,
            detail: usize::from(s.data_mark),
        },
        _ => NOTHING,
    }
}

// Kinds 13 to 17, on a sector's checks and its data, on a track of n cells.
#[tactic(auto, unfolding(crate::specs::Rules::data_rows))]
pub fn data_rule(k: usize, n: u32, s: Sector) -> Row
    ensures { result ≡ get_or (data_rows n s) k no_row }
{
    match k {
        // SBI
        0 => Row {
            holds: !s.id_check_good,
            place: s.place as usize,
            detail: usize::from(s.number),
        },
        // SND
        1 => Row {
            holds: s.id_check_good & (s.data_mark == 0),
            place: s.place as usize,
            detail: usize::from(s.number),
        },
        // SBD
        2 => Row {
            holds: (s.data_mark != 0) & !s.data_check_good,
            place: s.place as usize,
            detail: usize::from(s.number),
        },
        // DOI
        3 => Row {
            holds: (s.data_mark != 0) & ((s.data_place < n) & (n < s.data_end)),
            place: s.place as usize,
            detail: s.data_end.saturating_sub(n) as usize,
        },
        // DBI
        4 => Row {
            holds: (s.data_mark != 0) & (n <= s.data_place),
            place: s.place as usize,
            detail: s.data_place.saturating_sub(n) as usize,
        },
        _ => NOTHING,
    }
}

// Kinds 20 and 21, on the gaps of the track.
#[tactic(auto, unfolding(crate::specs::Rules::gap_rows))]
pub fn gap_rule(k: usize, gaps: Gaps) -> Row
    ensures { result ≡ get_or (gap_rows gaps) k no_row }
{
    match k {
        // MTV
        0 => Row {
            holds: 0 < gaps.violations,
            place: gaps.first,
            detail: gaps.violations,
        },
        // NFA
        1 => Row {
            holds: LONG_RUN <= gaps.longest,
            place: gaps.start,
            detail: gaps.longest,
        },
        _ => NOTHING,
    }
}

// SWS: does the sector s start in the data of e, on a track of n cells?
#[tactic(auto, unfolding(crate::specs::Rules::starts_in_data))]
pub fn starts_in_data(n: u32, s: Sector, e: Sector) -> bool
    ensures { result ≡ starts_in_data n s e }
{
    let place = s.place as usize;
    ((e.place != s.place) & (e.data_mark != 0))
        & (is_in_data(place, e) | is_in_data(place + n as usize, e))
}

// Does x lie from the data mark of e up to and without its data end?
fn is_in_data(x: usize, e: Sector) -> bool
    ensures { result ≡ is_in_data x e }
{
    ((e.data_place as usize) <= x) & (x < (e.data_end as usize))
}

// What is known of a track once its sectors are found. The struct stands by itself: what its methods promise names it.
ghost use Rattle.std.specs.Prelude.{◌≡◌, true};
ghost use Rattle.cells.specs.CellsAndBytes.{cell};
ghost use Rattle.cell_patterns.specs.Cells.{GapsFound};
ghost use Rattle.layouts.specs.Layouts.{layout_of};
ghost use Rattle.finding_list.specs.PrivateContracts.{BoundedTrack, SyncMap, AllApart};

use cell_patterns::Gaps;
use cell_words::WORDS;
use layouts::Density;
use sector_records::Sector;
use sectors::Track;

// What the rules look at: an accepted track, its sectors, the map of its syncs, and what was counted on its cells; and whether the sectors
// are known to lie apart.
#[derive(Clone, Copy)]
pub struct Surveyed<'a> {
    pub density: Density,
    pub track: Track<'a>,
    pub sectors: &'a [Sector],
    pub syncs: &'a [u64; WORDS],
    pub gaps: Gaps,
    pub apart: bool,
    ghost bounded: { BoundedTrack track.cells.count sectors.now },
    ghost sync_map: { SyncMap (layout_of density) track.cells.bytes.now track.cells.count syncs.now },
    ghost gaps_found: { GapsFound (layout_of density) (cell track.cells.bytes.now track.cells.count) track.cells.count gaps },
    ghost lie_apart: { apart ≡ true → AllApart track.cells.count sectors.now },
}

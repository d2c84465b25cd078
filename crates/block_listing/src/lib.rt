// The listing of one revolution of a track block: that of the track with the cells which the separator makes of it.
#![tactic(auto)]

ghost use Rattle.std.specs.Prelude.{◌≡◌, ◌≤◌, length};
ghost use Rattle.lines.specs.Lines.{out_after};
ghost use Rattle.block_listing.specs.BlockListing.{room_for_cells, block_listing};

use sectors::{Cells, Track};

// The listing of a revolution of a block, at the front of `out` (rule 9.17); the answer is the number of its bytes.
pub fn list_block(
    block: &[u8],
    revolutions: u32,
    revolution: u32,
    track: u32,
    side: u32,
    out: &mut [u8],
) -> usize
    ensures answer { result ≡ length (block_listing block.now revolutions revolution track side) }
    ensures few { result ≤ 65536 }
    ensures out { out.new ≡ out_after (block_listing block.now revolutions revolution track side) out.old }
{
    let mut cells = room_for_cells();
    let mut pulses: usize = 0;
    let separated = block_cells::separate_revolution(
        block,
        revolutions,
        revolution,
        &mut cells,
        &mut pulses,
    );
    match separated {
        Ok(count) => {
            let cells = Cells {
                bytes: &cells,
                count,
            };
            listing::list_track(Track { cells, track, side }, out)
        }
        Err(refusal) => lines::refused_line(out, refusal.number()),
    }
}

// Room for 131,072 cells.
#[tactic(auto, unfolding(crate::specs::BlockListing::room_for_cells))]
fn room_for_cells() -> [u8; 16384]
    ensures { result ≡ room_for_cells }
{
    [0; 16384]
}

// The page of a whole disk.
ghost use Rattle.std.specs.Prelude.{◌≡◌};
ghost use Rattle.disk_page.specs.Page.{page_answer, page_after};
ghost use Rattle.telling.specs.Numbers.{number_in, value_in};

use telling::told;

// The page of up to 168 tracks in any order, three numbers each (track, side, how many findings), and of their findings in the same order, four
// numbers each (kind, level, place, detail). As much of it as there is room for goes to the front of `out`; `value` is its whole length.
#[unsafe(no_mangle)]
pub extern "C" fn thikbromu_disk_page(
    tracks: &[u32],
    findings: &[u32],
    out: &mut [u8],
    value: &mut usize,
) -> u32
    ensures number { result ≡ number_in (page_answer tracks.now findings.now) }
    ensures value { value.new ≡ value_in (page_answer tracks.now findings.now) }
    ensures out { out.new ≡ page_after tracks.now findings.now out.old }
{
    told(disk_page::disk_page(tracks, findings, out), value)
}

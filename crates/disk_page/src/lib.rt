// The page of a whole disk, as bytes: the findings of up to 168 tracks, given in any order, sorted by side and track, each as its line after
// track and side. Tracks of one side that follow each other and have TNF share a line. What there is no room for is not written; the answer is
// the number of bytes of the whole.
#![tactic(auto)]

ghost use Rattle.std.specs.Prelude.{◌≡◌, cond, [], ◌+◌, ◌*◌, ◌<◌, ◌≤◌, eqb, length};
ghost use Rattle.basis.specs.Lists.{joined};
ghost use Rattle.disk_tracks.specs.Given.{some, kind_at, findings_in};
ghost use Rattle.refusals.specs.RefusedCalls.{answer_of};
ghost use Rattle.disk_page.specs.Ranges.{has_tnf, goes_on, last_of, is_empty, is_single_sided};
ghost use Rattle.disk_page.specs.Page.{entry_of, entry_lines, track_entries, side_entries, page_of, page_answer, page_after};
ghost use Rattle.disk_page.specs.Parts.{part_of, part_answer, part_after};
ghost use Rattle.disk_page.specs.PrivateContracts.{Whole, WroteOn, far};
ghost use Rattle.disk_lines.specs.EntryLines.{entry_line};
ghost use Rattle.lines.specs.Lines.{bytes_of};

use refusals::Refusal;

// The page of the tracks, three numbers each (track, side, how many findings), and of their findings in the same order, four numbers each
// (kind, level, place, detail). Both lists are flat because C hands them over so.
#[tactic(auto, unfolding(crate::specs::Page::page_answer, crate::specs::Page::page_after, refusals::specs::RefusedCalls::buffer_after))]
pub fn disk_page(tracks: &[u32], findings: &[u32], out: &mut [u8]) -> Result<usize, Refusal>
    ensures answer { answer_of result ≡ page_answer tracks.now findings.now }
    ensures out { out.new ≡ page_after tracks.now findings.now out.old }
{
    disk_tracks::judge_tracks(tracks, findings)?;
    let disk = Disk { tracks, findings };
    let mut page = Page { out, at: 0 };
    disk.write_page(&mut page);
    Ok(page.at)
}

// One part of the page, for those who have no room for all of it: 84 * H + T is the number of the part that has the lines of track T of side H, and
// 168 that of the part with the last line. The parts 0 to 168, one after the other, are the page.
#[tactic(auto, unfolding(crate::specs::Parts::part_answer, crate::specs::Parts::part_after, refusals::specs::RefusedCalls::buffer_after))]
pub fn page_part(
    tracks: &[u32],
    findings: &[u32],
    part: usize,
    out: &mut [u8],
) -> Result<usize, Refusal>
    ensures answer { answer_of result ≡ part_answer tracks.now findings.now part }
    ensures out { out.new ≡ part_after tracks.now findings.now part out.old }
{
    disk_tracks::judge_tracks(tracks, findings)?;
    let disk = Disk { tracks, findings };
    let mut page = Page { out, at: 0 };
    disk.write_part(&mut page, part);
    Ok(page.at)
}

// A lent buffer, and the place in it that is written next. What there is no room for is only counted. All lines together have less than 2^54
// bytes, so no sum can overflow.
#[derive(Drop)]
struct Page<'a> {
    out: &'a mut [u8],
    at: usize,
}

impl<'a> Page<'a> {
    // The line of a finding, after its tracks and its side.
    fn entry(
        &mut self,
        side: u32,
        first: u32,
        last: u32,
        kind: u32,
        level: u32,
        place: u32,
        detail: u32,
    )
        requires { self.old.at + 80 ≤ far }
        ensures { WroteOn self.old self.new (entry_line side first last kind level place detail) 80 }
    {
        let from = self.at.min(self.out.len());
        self.at += disk_lines::entry_line(
            &mut self.out[from..],
            side,
            first,
            last,
            kind,
            level,
            place,
            detail,
        );
    }

    // The bytes of a word.
    fn word(&mut self, bytes: &[u8])
        requires { self.old.at + length bytes.now ≤ far }
        ensures { WroteOn self.old self.new bytes.now (length bytes.now) }
    {
        let from = self.at.min(self.out.len());
        basis::copy(bytes, &mut self.out[from..]);
        self.at += bytes.len();
    }
}

// The tracks of a disk and their findings, which are accepted.
#[derive(Clone, Copy)]
struct Disk<'a> {
    tracks: &'a [u32],
    findings: &'a [u32],
    ghost whole: { Whole tracks.now findings.now },
}

impl<'a> Disk<'a> {
    // The page.
    fn write_page(&self, page: &mut Page)
        requires { page.old.at ≡ 0 }
        ensures { WroteOn page.old page.new (page_of self.now.tracks.now self.now.findings.now) far }
    {
        self.write_side(page, 0);
        self.write_side(page, 1);
        self.write_last_line(page);
    }

    // A part of it.
    fn write_part(&self, page: &mut Page, part: usize)
        requires { page.old.at ≡ 0 }
        ensures { WroteOn page.old page.new (part_of self.now.tracks.now self.now.findings.now part) far }
    {
        if part < 168 {
            let side = (part / 84) as u32;
            let track = (part % 84) as u32;
            self.write_track(page, side, track);
        } else if part == 168 {
            self.write_last_line(page);
        }
    }

    // The line that ends the page of a single-sided disk.
    fn write_last_line(&self, page: &mut Page)
        requires { page.old.at + 13 ≤ far }
        ensures { WroteOn page.old page.new (cond (is_single_sided self.now.tracks.now self.now.findings.now) (bytes_of "single-sided\n") []) 13 }
    {
        if self.is_single_sided() {
            page.word(b"single-sided\n");
        }
    }

    // The lines of a side, track after track.
    fn write_side(&self, page: &mut Page, side: u32)
        requires { page.old.at ≤ 0x20_0000_0000_0000 }
        ensures { WroteOn page.old page.new (entry_lines (side_entries self.now.tracks.now self.now.findings.now side)) (84 * (168 * (80 * 0x1_0000_0000))) }
    {
        for track in 0..84 {
            self.write_track(page, side, track);
        }
    }

    // The lines of a track, where it is given.
    fn write_track(&self, page: &mut Page, side: u32, track: u32)
        requires { (track ≤ 84) × (page.old.at ≤ 0x40_0000_0000_0000) }
        ensures { WroteOn page.old page.new (entry_lines (track_entries self.now.tracks.now self.now.findings.now side track)) (168 * (80 * 0x1_0000_0000)) }
    {
        let mut start: usize = 0;
        for [given_track, given_side, own] in self.tracks.as_chunks::<3>().0 {
            let own = *own as usize;
            if (*given_side, *given_track) == (side, track) {
                self.write_findings(page, side, track, start, own);
            }
            start += own;
        }
    }

    // A line for each finding of a track that has one.
    fn write_findings(&self, page: &mut Page, side: u32, track: u32, start: usize, own: usize)
        requires { (track ≤ 84) × (start + own ≤ findings_in self.now.findings.now) × (page.old.at + 80 * own ≤ far) }
        ensures { WroteOn page.old page.new (entry_lines (joined (λ k. entry_of self.now.tracks.now self.now.findings.now side track (start + k)) own)) (80 * own) }
    {
        for k in 0..own {
            self.write_finding(page, side, track, start + k);
        }
    }

    // The line of a finding. TNF has one where it begins a range, with the last track of that range.
    fn write_finding(&self, page: &mut Page, side: u32, track: u32, j: usize)
        requires { (track ≤ 84) × (j < findings_in self.now.findings.now) × (page.old.at + 80 ≤ far) }
        ensures { WroteOn page.old page.new (entry_lines (entry_of self.now.tracks.now self.now.findings.now side track j)) 80 }
    {
        let kind = self.findings[4 * j];
        let last_track = if kind != 4 {
            track
        } else if self.goes_on(side, track) {
            return;
        } else {
            self.last_of(side, track)
        };
        page.entry(
            side,
            track,
            last_track,
            kind,
            self.findings[4 * j + 1],
            self.findings[4 * j + 2],
            self.findings[4 * j + 3],
        );
    }

    // Whether the track before this one has TNF.
    fn goes_on(&self, side: u32, track: u32) -> bool
        ensures { result ≡ goes_on self.now.tracks.now self.now.findings.now side track }
    {
        0 < track && self.has_tnf(side, track - 1)
    }

    // The last track of the range that begins with this one.
    fn last_of(&self, side: u32, track: u32) -> u32
        requires { track ≤ 84 }
        ensures { result ≡ last_of self.now.tracks.now self.now.findings.now side track }
    {
        for last in track..84 {
            if !self.has_tnf(side, last + 1) {
                return last;
            }
        }
        84
    }

    // Whether just one side has TNF on each of its tracks.
    fn is_single_sided(&self) -> bool
        ensures { result ≡ is_single_sided self.now.tracks.now self.now.findings.now }
    {
        self.is_empty(0) != self.is_empty(1)
    }

    // Whether a side has TNF on all of the tracks 0 to 79.
    fn is_empty(&self, side: u32) -> bool
        ensures { result ≡ is_empty self.now.tracks.now self.now.findings.now side }
    {
        for track in 0..80 {
            if !self.has_tnf(side, track) {
                return false;
            }
        }
        true
    }

    // Whether the track is given and has TNF.
    fn has_tnf(&self, side: u32, track: u32) -> bool
        ensures { result ≡ has_tnf self.now.tracks.now self.now.findings.now side track }
    {
        let mut start: usize = 0;
        for [given_track, given_side, own] in self.tracks.as_chunks::<3>().0 {
            let own = *own as usize;
            if (*given_side, *given_track) == (side, track) && self.some_tnf(start, own) {
                return true;
            }
            start += own;
        }
        false
    }

    // Whether some finding of a track, whose findings begin at `start`, is TNF.
    fn some_tnf(&self, start: usize, own: usize) -> bool
        requires { start + own ≤ findings_in self.now.findings.now }
        ensures { result ≡ some (λ k. eqb (kind_at self.now.findings.now (start + k)) 4) own }
    {
        for k in 0..own {
            if self.findings[4 * (start + k)] == 4 {
                return true;
            }
        }
        false
    }
}

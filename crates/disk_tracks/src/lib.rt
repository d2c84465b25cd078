// The tracks of a disk and their findings, as they are handed over for its page, and whether they are accepted: section 16 of the specification.
#![tactic(auto)]

ghost use Rattle.std.specs.Prelude.{◌≡◌, true, ◌+◌, ◌*◌, ◌<◌, ◌≤◌, length};
ghost use Rattle.refusals.specs.RefusedCalls.{answer_of};
ghost use Rattle.disk_tracks.specs.Given.{some, before, tracks_in, findings_in};
ghost use Rattle.disk_tracks.specs.Judgement.{is_outside, some_outside, is_at, some_twice, add_up, is_amiss, is_later, amiss_at, some_amiss, judged};

use refusals::Refusal;

// How many findings the tracks have, or why they are refused. A track is three numbers: track, side, how many findings; a finding is four: kind,
// level, place, detail. The findings stand in the order of the tracks. Both lists are flat because C hands them over so.
#[tactic(auto, unfolding(crate::specs::Judgement::judged))]
pub fn judge_tracks(tracks: &[u32], findings: &[u32]) -> Result<usize, Refusal>
    ensures { answer_of result ≡ judged tracks.now findings.now }
{
    if tracks.len() / 3 > 168 {
        return Err(Refusal::TooManyTracks);
    }
    if some_outside(tracks) {
        return Err(Refusal::TrackOrSide);
    }
    if some_twice(tracks) {
        return Err(Refusal::TrackGivenTwice);
    }
    if !add_up(tracks, findings) || some_amiss(tracks, findings) {
        return Err(Refusal::NotTheirFindings);
    }
    Ok(findings.len() / 4)
}

// Whether some track is none of a disk.
fn some_outside(tracks: &[u32]) -> bool
    ensures { result ≡ some_outside tracks.now }
{
    for [track, side, _] in tracks.as_chunks::<3>().0 {
        if is_outside(*track, *side) {
            return true;
        }
    }
    false
}

// A track above 83, or a side above 1.
#[tactic(auto, unfolding(crate::specs::Judgement::is_outside))]
fn is_outside(track: u32, side: u32) -> bool
    ensures { result ≡ is_outside track side }
{
    (track > 83) | (side > 1)
}

// Whether some track and side is given a second time.
fn some_twice(tracks: &[u32]) -> bool
    ensures { result ≡ some_twice tracks.now }
{
    for (i, [track, side, _]) in tracks.as_chunks::<3>().0.iter().enumerate() {
        if is_before(tracks, i, *side, *track) {
            return true;
        }
    }
    false
}

// Whether this track and side is among the first tracks, up to the one at `end`.
fn is_before(tracks: &[u32], end: usize, side: u32, track: u32) -> bool
    requires { 3 * end ≤ length tracks.now }
    ensures { result ≡ some (is_at tracks.now side track) end }
{
    for [earlier_track, earlier_side, _] in tracks[..3 * end].as_chunks::<3>().0 {
        if (*earlier_side, *earlier_track) == (side, track) {
            return true;
        }
    }
    false
}

// Whether the lists have whole tracks and findings, and as many findings as the tracks say.
#[tactic(auto, unfolding(crate::specs::Judgement::add_up))]
fn add_up(tracks: &[u32], findings: &[u32]) -> bool
    requires { tracks_in tracks.now ≤ 168 }
    ensures { result ≡ add_up tracks.now findings.now }
{
    (tracks.len() % 3 == 0) & (findings.len() % 4 == 0) & (sum(tracks) == findings.len() / 4)
}

// How many findings the tracks say that they have. 168 numbers of 32 bits do not wrap.
fn sum(tracks: &[u32]) -> usize
    requires { tracks_in tracks.now ≤ 168 }
    ensures { result ≡ before tracks.now (tracks_in tracks.now) }
{
    let mut all: usize = 0;
    for [_, _, own] in tracks.as_chunks::<3>().0 {
        all += *own as usize;
    }
    all
}

// Whether some finding is none that its track can have at its place in the list.
fn some_amiss(tracks: &[u32], findings: &[u32]) -> bool
    requires { add_up tracks.now findings.now ≡ true }
    ensures { result ≡ some_amiss tracks.now findings.now }
{
    let mut start: usize = 0;
    for [track, _, own] in tracks.as_chunks::<3>().0 {
        let own = *own as usize;
        if track_amiss(*track, findings, start, own) {
            return true;
        }
        start += own;
    }
    false
}

// The same for one track, whose findings begin at `start`.
fn track_amiss(track: u32, findings: &[u32], start: usize, own: usize) -> bool
    requires { start + own ≤ findings_in findings.now }
    ensures { result ≡ some (amiss_at track findings.now start) own }
{
    for k in 0..own {
        if is_amiss_at(track, findings, start, k) {
            return true;
        }
    }
    false
}

// The same for one finding.
#[tactic(auto, unfolding(crate::specs::Judgement::amiss_at))]
fn is_amiss_at(track: u32, findings: &[u32], start: usize, k: usize) -> bool
    requires { start + k < findings_in findings.now }
    ensures { result ≡ amiss_at track findings.now start k }
{
    let j = 4 * (start + k);
    if is_amiss(
        track,
        findings[j],
        findings[j + 1],
        findings[j + 2],
        findings[j + 3],
    ) {
        return true;
    }
    if k < 1 {
        return false;
    }
    let i = 4 * (start + k - 1);
    !is_later(findings[i], findings[i + 2], findings[j], findings[j + 2])
}

// A kind outside 1 to 21, or TNF on another track or with other numbers than it has. A kind is a number here, for any number may be given.
#[tactic(auto, unfolding(crate::specs::Judgement::is_amiss))]
fn is_amiss(track: u32, kind: u32, level: u32, place: u32, detail: u32) -> bool
    ensures { result ≡ is_amiss track kind level place detail }
{
    (kind < 1)
        | (kind > 21)
        | (kind == 4) & ((track > 79) | (level != 2) | (place != 0) | (detail != 0))
}

// Whether a finding stands after an earlier one: by kind, then place.
#[tactic(auto, unfolding(crate::specs::Judgement::is_later))]
fn is_later(earlier_kind: u32, earlier_place: u32, kind: u32, place: u32) -> bool
    ensures { result ≡ is_later earlier_kind earlier_place kind place }
{
    (earlier_kind < kind) | (earlier_kind == kind) & (earlier_place < place)
}

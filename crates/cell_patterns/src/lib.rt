// What the kinds MTV, NFA and SID count on the cells of a track (rules 7.38 to 7.42, 7.45, 7.46): ones too near or too far, the longest run
// of zeros, and sync words. All of it goes over maps of 64 places a word (crate cell_words).
#![tactic(auto)]

mod zeros;

ghost use Rattle.std.specs.Prelude.{◌≡◌, Bool, ℕ, ◌+◌, ◌-◌, ◌/◌, ◌<◌, ◌≤◌, length};
ghost use Rattle.basis.specs.Search.{count};
ghost use Rattle.cell_words.specs.Words.{Holds, MapOf};
ghost use Rattle.cell_words.specs.Tests.{one_at};
ghost use Rattle.layouts.specs.Layouts.{layout_of};
ghost use Rattle.sector_records.specs.Marks.{word_mark_at};
ghost use Rattle.cell_patterns.specs.Cells.{violation, GapsFound, syncs_between, syncs_inside};

use cell_words::WORDS;
use layouts::{Density, layout_of};
use sector_records::{BYTE_LENGTH, Sector};

// What MTV and NFA look at: the first one whose next one is too near or too far, n where there is none, and how many there
// are; the start of the longest run of zeros, of equal ones the least, and its length, where it has 1,000 zeros or more. Of shorter runs `longest` is
// only some number below 1,000.
#[derive(Clone, Copy, Debug)]
pub struct Gaps {
    pub first: usize,
    pub violations: usize,
    pub start: usize,
    pub longest: usize,
}

// MTV and NFA, out of the map of the ones of a track of 128 to 131,072 cells. Of the runs of zeros, those are gone into that NFA can ask for.
pub fn find_gaps(density: Density, words: &[u64; WORDS], n: usize) -> Gaps
    ensures { (f : ℕ → ℕ) → ((q : ℕ) → f (q + n) ≡ f q) → 128 ≤ n → n ≤ 131072 → Holds (one_at f) words.now (n / 64 + 68) → GapsFound (layout_of density) f n result }
{
    let mut map = [0u64; WORDS];
    violation_map(density, words, &mut map, n / 64 + 1);
    let first = cell_words::least_in(&map, 0, n);
    let violations = cell_words::count_in(&map, 0, n);
    let run = zeros::longest_run(words, &mut map, n);
    Gaps {
        first,
        violations,
        start: run.start,
        longest: run.longest,
    }
}

// The first m words of the map of the ones whose next one is too near or too far.
fn violation_map(density: Density, words: &[u64; WORDS], map: &mut [u64; WORDS], m: usize)
    ensures { (f : ℕ → ℕ) (n : ℕ) → 4 ≤ n → Holds (one_at f) words.now (m + 1) → m < 2116 → length map.old ≡ 2116 → MapOf (violation (layout_of density) f n) map.new m }
{
    cell_words::alone_map(words, map, m);
    match density {
        Density::Single => {}
        Density::Double => cell_words::gap_map(words, map, m),
    }
}

// SID: how many sync words stand within a sector's ID and its data, out of the map of a track's syncs. The sector goes round the track once at most.
pub fn syncs_inside(density: Density, n: usize, syncs: &[u64; WORDS], s: Sector) -> usize
    ensures { (f : ℕ → ℕ) → ((q : ℕ) → f (q + n) ≡ f q) → n ≤ 131072 → Holds (word_mark_at f (layout_of density).sync) syncs.now (n / 64 + 64) → s.place + 160 ≤ n + n → s.data_end ≤ n + n → result ≡ syncs_inside (layout_of density) f s }
{
    let layout = layout_of(density);
    let mark = layout.mark_length;
    let p = s.place as usize;
    let inside = syncs_between(n, syncs, p + mark, p + layout.id_length);
    if s.data_mark == 0 {
        return inside;
    }
    let data = s.data_place as usize + mark;
    inside + syncs_between(n, syncs, data, s.data_end as usize)
}

// How often a sync stands wholly between two places, in any phase.
fn syncs_between(n: usize, syncs: &[u64; WORDS], from: usize, to: usize) -> usize
    ensures { (result ≤ 300000) × ((f : ℕ → ℕ) (sync : ℕ) → ((q : ℕ) → f (q + n) ≡ f q) → n ≤ 131072 → Holds (word_mark_at f sync) syncs.now (n / 64 + 64) → to ≤ n + n → result ≡ syncs_between sync f from to) }
{
    if to < BYTE_LENGTH {
        return 0;
    }
    // after the last place at which it can start
    let end = to - (BYTE_LENGTH - 1);
    count_round(n, syncs, from, end)
}

// How many places from `from` and before `end` pass the test of a map, on a track of n cells that goes on round.
fn count_round(n: usize, map: &[u64; WORDS], from: usize, end: usize) -> usize
    ensures { (result ≤ 300000) × ((t : ℕ → Bool) → ((q : ℕ) → t (q + n) ≡ t q) → n ≤ 131072 → Holds t map.now (n / 64 + 1) → end ≤ n + n → result ≡ count t (end - from) from) }
{
    if end <= n {
        return cell_words::count_in(map, from, end);
    }
    if from < n {
        return cell_words::count_in(map, from, n) + cell_words::count_in(map, 0, end - n);
    }
    cell_words::count_in(map, from - n, end - n)
}

// The longest run of zeros of a track, where it has 1,000 or more (rules 7.21, 7.41, 7.42).
ghost use Rattle.std.specs.Prelude.{◌≡◌, false, ℕ, ◌+◌, ◌/◌, ◌<◌, ◌≤◌, leb, length, get_or};
ghost use Rattle.basis.specs.Search.{least};
ghost use Rattle.cell_words.specs.Words.{Holds};
ghost use Rattle.cell_words.specs.Tests.{one_at};
ghost use Rattle.cell_patterns.specs.Cells.{zeros_from, LongRun};

use cell_words::WORDS;
use sector_records::MOST_CELLS;

// A run of zeros.
#[derive(Clone, Copy, Debug)]
pub struct Run {
    pub start: usize,
    pub longest: usize,
}

// The longest run. Where no word of the map of the ones is 0, no run has 127 zeros; else the runs of 64 zeros or more are gone through. `map` is for
// that, whatever it held.
pub fn longest_run(words: &[u64; WORDS], map: &mut [u64; WORDS], n: usize) -> Run
    ensures { (f : ℕ → ℕ) → ((q : ℕ) → f (q + n) ≡ f q) → 128 ≤ n → n ≤ 131072 → Holds (one_at f) words.now (n / 64 + 68) → length map.old ≡ 2116 → LongRun f n result.start result.longest }
{
    if MOST_CELLS < n || !some_zero(words, n / 64 + 2) {
        return Run {
            start: 0,
            longest: 0,
        };
    }
    long_map(words, map, n);
    longest_of_long(words, map, n)
}

// Is one of the first m words 0? The loop goes on whatever it finds, so that the compiler can test several words at once.
fn some_zero(words: &[u64; WORDS], m: usize) -> bool
    ensures { result ≡ false → m ≤ 2116 → (w : ℕ) → w < m → get_or words.now w 0 ≡ 0 → ⊥ }
{
    let mut some = false;
    for word in &words[..m.min(WORDS)] {
        some |= *word == 0;
    }
    some
}

// The map of the places from which 64 zeros stand or more: twice as many at each step. A step costs a word.
fn long_map(words: &[u64; WORDS], map: &mut [u64; WORDS], n: usize)
    requires { n ≤ 131072 }
    ensures { (f : ℕ → ℕ) → 128 ≤ n → Holds (one_at f) words.now (n / 64 + 68) → length map.old ≡ 2116 → Holds (λ q. leb 64 (zeros_from f n q)) map.new (n / 64 + 62) }
{
    cell_words::like_map(words, false, map, n / 64 + 68);
    cell_words::both_map(map, 1, n / 64 + 67);
    cell_words::both_map(map, 2, n / 64 + 66);
    cell_words::both_map(map, 4, n / 64 + 65);
    cell_words::both_map(map, 8, n / 64 + 64);
    cell_words::both_map(map, 16, n / 64 + 63);
    cell_words::both_map(map, 32, n / 64 + 62);
}

// The most zeros of a run that is not in the map of the long ones.
const SHORT: usize = 63;

// The longest of the long runs, of which `long` is the map: from one to the next, each found by a search. Where there are none, it is said to be of 63 zeros.
fn longest_of_long(words: &[u64; WORDS], long: &[u64; WORDS], n: usize) -> Run
    requires { n ≤ 131072 }
    ensures { (f : ℕ → ℕ) → ((q : ℕ) → f (q + n) ≡ f q) → 128 ≤ n → Holds (one_at f) words.now (n / 64 + 1) → Holds (λ q. leb 64 (zeros_from f n q)) long.now (n / 64 + 1) → LongRun f n result.start result.longest }
{
    let first = cell_words::least_in(words, 0, n);
    let mut longest = SHORT;
    let mut start: usize = 0;
    let mut p = cell_words::least_in(long, 0, n);
    // The next place comes from a search, so that a `for` would be no plainer.
    while p < n {
        let zeros = zeros_from(words, first, n, p);
        if longest < zeros {
            start = p;
            longest = zeros;
        }
        p = cell_words::least_in(long, p + zeros + 1, n);
    }
    Run { start, longest }
}

// How many zeros follow each other from p on, where the first one of the track is `first`.
fn zeros_from(words: &[u64; WORDS], first: usize, n: usize, p: usize) -> usize
    requires { (p < n) × (n ≤ 131072) }
    ensures { (result ≤ n) × ((f : ℕ → ℕ) → ((q : ℕ) → f (q + n) ≡ f q) → Holds (one_at f) words.now (n / 64 + 1) → first ≡ least (one_at f) n 0 → result ≡ zeros_from f n p) }
{
    let end = cell_words::least_in(words, p, n);
    if end < n {
        return end - p;
    }
    n - p + first.min(p)
}

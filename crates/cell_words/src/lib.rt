// Tests on cells, made at 64 places at once. The map of a test is a list of words with a bit for each place, the highest bit for the first.
#![tactic(auto)]

ghost use Rattle.std.specs.Prelude.{◌≡◌, Bool, List, ℕ, ◌+◌, ◌-◌, ◌*◌, ◌/◌, ◌%◌, ◌^◌, ◌<◌, ◌≤◌, eqb, length, get_or};
ghost use Rattle.std.specs.Int.Count.{count_leading_zeros};
ghost use Rattle.basis.specs.Search.{least, count};
ghost use Rattle.cells.specs.CellsAndBytes.{cell_at, cell, word};
ghost use Rattle.cell_words.specs.Words.{mask, Holds, MapOf};
ghost use Rattle.cell_words.specs.Tests.{one_at, like_at, both_at, kept_from, alone_at, gap_from, thrice_at, stands_at};
ghost use Rattle.cell_words.specs.PrivateContracts.{seven_from, sync_from};

use cells::Cells;

// The words of a map: enough for a track of 131,072 cells, and for 4,352 places past its end.
pub const WORDS: usize = 2116;

// The places of a map.
const PLACES: usize = 135424;

// The 64 cells from p, counted on past the track's end. Where they lie on the track and nine bytes hold them they are loaded at once; all
// else is a function of its own, so that the compiler puts these few lines into the loops that ask.
#[inline(always)]
pub fn word_from(cells: Cells, p: usize) -> u64
    ensures { result ≡ word (cell cells.entry.bytes.now cells.entry.count) 64 p }
{
    let k = p / 8;
    if p < cells.count && 64 <= cells.count - p && k + 8 < cells.bytes.len() {
        return nine_bytes(cells.bytes, k, p % 8);
    }
    word_round(cells, p)
}

// The same for any place, which is first moved before the track's end.
#[inline(never)]
fn word_round(cells: Cells, p: usize) -> u64
    ensures { result ≡ word (cell cells.entry.bytes.now cells.entry.count) 64 p }
{
    let at = place_on(cells.count, p);
    let k = at / 8;
    if at < cells.count && 64 <= cells.count - at && k + 8 < cells.bytes.len() {
        return nine_bytes(cells.bytes, k, at % 8);
    }
    cells.word(at, 64)
}

// The first m words of the map of a track's ones, which goes on round it.
pub fn load(cells: Cells, words: &mut [u64; WORDS], m: usize)
    ensures { length words.old ≡ 2116 → m ≤ 2116 → MapOf (one_at (cell cells.entry.bytes.now cells.entry.count)) words.new m }
{
    let end = m.min(WORDS);
    let whole = (cells.count / 64).min(cells.bytes.len() / 8).min(end);
    for w in 0..whole {
        words[w] = eight_bytes(cells.bytes, 8 * w);
    }
    for w in whole..end {
        words[w] = word_from(cells, 64 * w);
    }
}

// The functions below make the first m words of a map out of those of others, of which some need up to three words more, or change a map in place.

// Makes each of the first m words of a map out of the two words of another map that begin there, and of its own two.
fn each_word<F: Fn(u64, u64, u64, u64) -> u64>(
    words: &[u64; WORDS],
    map: &mut [u64; WORDS],
    m: usize,
    f: F,
)
    requires { F.IsAlwaysCallable f }
    ensures { (w : ℕ) → w < m → m < 2116 → F.post f (get_or words.now w 0) (get_or words.now (w + 1) 0) (get_or map.old w 0) (get_or map.old (w + 1) 0) (get_or map.new w 0) }
{
    for w in 0..m.min(WORDS - 1) {
        map[w] = f(words[w], words[w + 1], map[w], map[w + 1]);
    }
}

// The map of the places where a test passes, or of those where it fails. Not by each_word: it can make all the words of a map, and after the
// last no word follows.
pub fn like_map(words: &[u64; WORDS], passes: bool, map: &mut [u64; WORDS], m: usize)
    ensures { (t : ℕ → Bool) → Holds t words.now m → m ≤ 2116 → length map.old ≡ 2116 → MapOf (like_at passes t) map.new m }
{
    for w in 0..m.min(WORDS) {
        map[w] = like_word(words[w], passes);
    }
}

// The map of the places where a test passes, and not at the next two.
pub fn alone_map(words: &[u64; WORDS], map: &mut [u64; WORDS], m: usize)
    ensures { (t : ℕ → Bool) → Holds t words.now (m + 1) → m < 2116 → length map.old ≡ 2116 → MapOf (alone_at t) map.new m }
{
    each_word(words, map, m, alone_word);
}

// Out of the map of 100, that of the ones whose next one is too near or too far in double density.
pub fn gap_map(words: &[u64; WORDS], map: &mut [u64; WORDS], m: usize)
    ensures { (s t : ℕ → Bool) → Holds s words.now (m + 1) → Holds t map.old m → m < 2116 → length map.old ≡ 2116 → MapOf (gap_from s t) map.new m }
{
    each_word(words, map, m, gap_word);
}

// Leaves in a map the places from which its test passes k places on too, for a k from 1 to 63.
pub fn both_map(map: &mut [u64; WORDS], k: usize, m: usize)
    ensures { (t : ℕ → Bool) → Holds t map.old (m + 1) → m < 2116 → 1 ≤ k → k < 64 → length map.old ≡ 2116 → MapOf (both_at k t) map.new m }
{
    if k == 0 || 63 < k {
        return;
    }
    both_by(map, k, m);
}

// Leaves in a map the places from which the test of another map passes k places on, or fails there, for a k from 1 to 63.
pub fn keep_map(words: &[u64; WORDS], k: usize, passes: bool, map: &mut [u64; WORDS], m: usize)
    ensures { (s t : ℕ → Bool) → Holds s words.now (m + 1) → Holds t map.old m → m < 2116 → 1 ≤ k → k < 64 → length map.old ≡ 2116 → MapOf (kept_from k passes s t) map.new m }
{
    if k == 0 || 63 < k {
        return;
    }
    keep_by(words, k, passes, map, m);
}

// Out of the map of the ones, that of the places where a word of 16 cells stands.
pub fn word_map(words: &[u64; WORDS], word: u64, map: &mut [u64; WORDS], m: usize)
    ensures { (f : ℕ → ℕ) → ((i : ℕ) → f i < 2) → Holds (one_at f) words.now (m + 3) → m ≤ 2113 → word < 0x1_0000 → length map.old ≡ 2116 → MapOf (stands_at f word) map.new m }
{
    if word == SYNC {
        map_of_syncs(words, map, m);
        return;
    }
    map_by_cells(words, word, map, m);
}

// Out of the map of the syncs, that of the places where three follow each other.
pub fn thrice_map(words: &[u64; WORDS], map: &mut [u64; WORDS], m: usize)
    ensures { (t : ℕ → Bool) → Holds t words.now (m + 1) → m < 2116 → length map.old ≡ 2116 → MapOf (thrice_at t) map.new m }
{
    each_word(words, map, m, thrice_word);
}

// The sync of double density.
const SYNC: u64 = 0x4489;

// How many cells the word of `word_map` has.
const WORD_CELLS: usize = 16;

// The map of 4489, in three steps: its cells are 0, twice 1000100, and 1.
fn map_of_syncs(words: &[u64; WORDS], map: &mut [u64; WORDS], m: usize)
    ensures { (f : ℕ → ℕ) → ((i : ℕ) → f i < 2) → Holds (one_at f) words.now (m + 3) → m ≤ 2113 → length map.old ≡ 2116 → MapOf (stands_at f 0x4489) map.new m }
{
    let count = m.min(WORDS - 3);
    alone_map(words, map, count + 2);
    seven_map(words, map, count + 1);
    sync_map(words, map, count);
}

// The map of any word, a cell at a turn.
fn map_by_cells(words: &[u64; WORDS], word: u64, map: &mut [u64; WORDS], m: usize)
    ensures { (f : ℕ → ℕ) → ((i : ℕ) → f i < 2) → Holds (one_at f) words.now (m + 1) → m < 2116 → word < 0x1_0000 → length map.old ≡ 2116 → MapOf (stands_at f word) map.new m }
{
    like_map(words, has_one(word, 0), map, m);
    for k in 1..WORD_CELLS {
        keep_by(words, k, has_one(word, k), map, m);
    }
}

// Is cell k of a word of 16 a one?
fn has_one(word: u64, k: usize) -> bool
    requires { k < 16 }
    ensures { result ≡ eqb (word / 2 ^ (15 - k) % 2) 1 }
{
    (word >> (WORD_CELLS - 1 - k)) % 2 == 1
}

fn keep_by(words: &[u64; WORDS], k: usize, passes: bool, map: &mut [u64; WORDS], m: usize)
    requires { (1 ≤ k) × (k < 64) }
    ensures { (s t : ℕ → Bool) → Holds s words.now (m + 1) → Holds t map.old m → m < 2116 → length map.old ≡ 2116 → MapOf (kept_from k passes s t) map.new m }
{
    each_word(
        words,
        map,
        m,
        move |x, y, a, _b| -> u64
            requires { (1 ≤ k) × (k < 64) }
            ensures { (s t : ℕ → Bool) (p : ℕ) → x ≡ mask s 64 p → y ≡ mask s 64 (p + 64) → a ≡ mask t 64 p → result ≡ mask (kept_from k passes s t) 64 p }
        { keep_word(x, y, k, passes, a) },
    );
}

// Not by each_word, to which a map cannot be lent both as the one that is read and as the one that is changed.
fn both_by(map: &mut [u64; WORDS], k: usize, m: usize)
    requires { (1 ≤ k) × (k < 64) }
    ensures { (t : ℕ → Bool) → Holds t map.old (m + 1) → m < 2116 → length map.old ≡ 2116 → MapOf (both_at k t) map.new m }
{
    for w in 0..m.min(WORDS - 1) {
        map[w] = both_word(map[w], map[w + 1], k);
    }
}

// Out of the map of 100, that of 1000100.
fn seven_map(words: &[u64; WORDS], map: &mut [u64; WORDS], m: usize)
    ensures { (s t : ℕ → Bool) → Holds s words.now (m + 1) → Holds t map.old (m + 1) → m < 2116 → length map.old ≡ 2116 → MapOf (seven_from s t) map.new m }
{
    each_word(words, map, m, seven_word);
}

// Out of the map of 1000100, that of 4489.
fn sync_map(words: &[u64; WORDS], map: &mut [u64; WORDS], m: usize)
    ensures { (s t : ℕ → Bool) → Holds s words.now (m + 1) → Holds t map.old (m + 1) → m < 2116 → length map.old ≡ 2116 → MapOf (sync_from s t) map.new m }
{
    each_word(words, map, m, sync_word);
}

// Looks a map's test up between two places: the first that passes, of those not before `from` and before `to`, or the greater of the two.
pub fn least_in(map: &[u64; WORDS], from: usize, to: usize) -> usize
    ensures { (from ≤ result) × ((t : ℕ → Bool) (m : ℕ) → Holds t map.now m → to ≤ 64 * m → m ≤ 2116 → result ≡ least t (to - from) from) }
{
    let end = to.min(PLACES);
    if end <= from {
        return from;
    }
    least_before(map, from, end)
}

// Counts the places that pass a map's test, of those not before `from` and before `to`.
pub fn count_in(map: &[u64; WORDS], from: usize, to: usize) -> usize
    ensures { (result ≤ 135552) × ((t : ℕ → Bool) (m : ℕ) → Holds t map.now m → to ≤ 64 * m → m ≤ 2116 → result ≡ count t (to - from) from) }
{
    let end = to.min(PLACES);
    if end <= from {
        return 0;
    }
    count_before(map, from, end)
}

// As least_in, where there is a place to look at: the rest of the first word, and then word by word.
fn least_before(map: &[u64; WORDS], from: usize, to: usize) -> usize
    requires { (from < to) × (to ≤ 135424) }
    ensures { (from ≤ result) × ((t : ℕ → Bool) (m : ℕ) → Holds t map.now m → to ≤ 64 * m → m ≤ 2116 → result ≡ least t (to - from) from) }
{
    let w = from / 64;
    let first = map[w] << (from % 64);
    if first != 0 {
        return to.min(from + zeros_before(first));
    }
    for v in w + 1..to.div_ceil(64) {
        let x = map[v];
        if x != 0 {
            return to.min(64 * v + zeros_before(x));
        }
    }
    to
}

// As count_in, where there is a place to look at: the first word, whole words, and what is left of the last.
fn count_before(map: &[u64; WORDS], from: usize, to: usize) -> usize
    requires { (from < to) × (to ≤ 135424) }
    ensures { (result ≤ 135552) × ((t : ℕ → Bool) (m : ℕ) → Holds t map.now m → to ≤ 64 * m → m ≤ 2116 → result ≡ count t (to - from) from) }
{
    let a = from / 64;
    let b = to / 64;
    if a == b {
        return count_part(map[a], from % 64, to - from);
    }
    let first = count_part(map[a], from % 64, 64 - from % 64);
    let middle = count_words(map, a + 1, b);
    let last = to % 64;
    if last == 0 {
        return first + middle;
    }
    first + middle + count_part(map[b], 0, last)
}

// The ones in all words whose indexes are not below a and below b.
fn count_words(map: &[u64; WORDS], a: usize, b: usize) -> usize
    requires { (a ≤ b) × (b ≤ 2116) }
    ensures { (result ≤ 135424) × ((t : ℕ → Bool) (m : ℕ) → Holds t map.now m → b ≤ m → result ≡ count t (64 * (b - a)) (64 * a)) }
{
    let mut found: usize = 0;
    for w in a..b {
        found += count_part(map[w], 0, 64);
    }
    found
}

// How many pass of the k places of a word from its place s.
fn count_part(x: u64, s: usize, k: usize) -> usize
    requires { (1 ≤ k) × (s + k ≤ 64) }
    ensures { (result ≤ k) × ((t : ℕ → Bool) (p : ℕ) → x ≡ mask t 64 p → result ≡ count t k (p + s)) }
{
    if x == 0 {
        return 0;
    }
    u64::count_ones((x << s) >> (64 - k)) as usize
}

fn zeros_before(x: u64) -> usize
    ensures { (result ≤ 64) × (result ≡ count_leading_zeros 64 x) }
{
    u64::leading_zeros(x) as usize
}

// A place whose cells are those from p: before the track's end, where there is one.
#[tactic(auto, using(crate::proofs::Loading::same_place))]
fn place_on(n: usize, p: usize) -> usize
    ensures { (bytes : List ℕ) (q : ℕ) → cell bytes n (result + q) ≡ cell bytes n (p + q) }
{
    if p < n || n == 0 { p } else { p % n }
}

// The 64 cells from cell s of byte k on.
fn nine_bytes(bytes: &[u8], k: usize, s: usize) -> u64
    requires { (k + 8 < length bytes.now) × (s < 8) }
    ensures { result ≡ word (cell_at bytes.now) 64 (8 * k + s) }
{
    (eight_bytes(bytes, k) << s) | (u64::from(bytes[k + 8]) >> (8 - s))
}

// The word of eight bytes from byte k on.
fn eight_bytes(bytes: &[u8], k: usize) -> u64
    requires { k + 8 ≤ length bytes.now }
    ensures { result ≡ word (cell_at bytes.now) 64 (8 * k) }
{
    u64::from_be_bytes([
        bytes[k],
        bytes[k + 1],
        bytes[k + 2],
        bytes[k + 3],
        bytes[k + 4],
        bytes[k + 5],
        bytes[k + 6],
        bytes[k + 7],
    ])
}

// Words that follow each other, k places on.
fn on(x: u64, y: u64, k: usize) -> u64
    requires { (1 ≤ k) × (k < 64) }
    ensures { (t : ℕ → Bool) (p : ℕ) → x ≡ mask t 64 p → y ≡ mask t 64 (p + 64) → result ≡ mask (λ q. t (q + k)) 64 p }
{
    (x << k) | (y >> (64 - k))
}

fn like_word(x: u64, passes: bool) -> u64
    ensures { (t : ℕ → Bool) (p : ℕ) → x ≡ mask t 64 p → result ≡ mask (like_at passes t) 64 p }
{
    if passes { x } else { !x }
}

fn keep_word(x: u64, y: u64, k: usize, passes: bool, a: u64) -> u64
    requires { (1 ≤ k) × (k < 64) }
    ensures { (s t : ℕ → Bool) (p : ℕ) → x ≡ mask s 64 p → y ≡ mask s 64 (p + 64) → a ≡ mask t 64 p → result ≡ mask (kept_from k passes s t) 64 p }
{
    a & like_word(on(x, y, k), passes)
}

fn alone_word(x: u64, y: u64, _a: u64, _b: u64) -> u64
    ensures { (t : ℕ → Bool) (p : ℕ) → x ≡ mask t 64 p → y ≡ mask t 64 (p + 64) → result ≡ mask (alone_at t) 64 p }
{
    let x1 = on(x, y, 1);
    let x2 = on(x, y, 2);
    x & !(x1 | x2)
}

fn both_word(x: u64, y: u64, k: usize) -> u64
    requires { (1 ≤ k) × (k < 64) }
    ensures { (t : ℕ → Bool) (p : ℕ) → x ≡ mask t 64 p → y ≡ mask t 64 (p + 64) → result ≡ mask (both_at k t) 64 p }
{
    x & on(x, y, k)
}

fn seven_word(x: u64, y: u64, a: u64, b: u64) -> u64
    ensures { (s t : ℕ → Bool) (p : ℕ) → x ≡ mask s 64 p → y ≡ mask s 64 (p + 64) → a ≡ mask t 64 p → b ≡ mask t 64 (p + 64) → result ≡ mask (seven_from s t) 64 p }
{
    let x3 = on(x, y, 3);
    let a4 = on(a, b, 4);
    a & (!x3 & a4)
}

fn sync_word(x: u64, y: u64, a: u64, b: u64) -> u64
    ensures { (s t : ℕ → Bool) (p : ℕ) → x ≡ mask s 64 p → y ≡ mask s 64 (p + 64) → a ≡ mask t 64 p → b ≡ mask t 64 (p + 64) → result ≡ mask (sync_from s t) 64 p }
{
    let x15 = on(x, y, 15);
    let a1 = on(a, b, 1);
    let a8 = on(a, b, 8);
    (a1 & a8) & (x15 & !x)
}

fn gap_word(x: u64, y: u64, a: u64, _b: u64) -> u64
    ensures { (s t : ℕ → Bool) (p : ℕ) → x ≡ mask s 64 p → y ≡ mask s 64 (p + 64) → a ≡ mask t 64 p → result ≡ mask (gap_from s t) 64 p }
{
    let x1 = on(x, y, 1);
    let x3 = on(x, y, 3);
    let x4 = on(x, y, 4);
    (x & x1) | (a & !(x3 | x4))
}

fn thrice_word(x: u64, y: u64, _a: u64, _b: u64) -> u64
    ensures { (t : ℕ → Bool) (p : ℕ) → x ≡ mask t 64 p → y ≡ mask t 64 (p + 64) → result ≡ mask (thrice_at t) 64 p }
{
    let a = on(x, y, 16);
    let b = on(x, y, 32);
    x & (a & b)
}

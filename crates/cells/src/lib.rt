// The cells of a track, which form a ring: eight are kept in a byte, the first of them as its highest bit.
#![tactic(auto)]

ghost use Rattle.std.specs.Prelude.{◌≡◌, ℕ, ◌<◌, ◌≤◌, ◌*◌, ◌+◌, ◌-◌, ◌/◌, ◌%◌, ◌^◌, true, false, cond, eqb, length, get_or};
ghost use Rattle.cells.specs.PrivateContracts.{Skipped};
ghost use Rattle.cells.specs.CellsAndBytes.{cell_at, cell, word, word_at, least_place, cleared, with_one};

// Cells packed in bytes, and how many of them a track has. Any bytes go with any count: a cell for which there is no byte is 0.
#[derive(Clone, Copy, Debug)]
pub struct Cells<'a> {
    pub bytes: &'a [u8],
    pub count: usize,
}

// Cell i of packed bytes, 0 or 1; past their end 0.
#[tactic(auto, unfolding(crate::specs::CellsAndBytes::cell_at), using(crate::proofs::Places::cell_at_past))]
pub fn cell_at(bytes: &[u8], i: usize) -> u64
    ensures { result ≡ cell_at bytes.now i }
{
    let k = i / 8;
    if k < bytes.len() {
        u64::from((bytes[k] >> (7 - i % 8)) % 2)
    } else {
        0
    }
}

impl<'a> Cells<'a> {
    // Cell p of the track, counted on past its end.
    pub fn cell(self, p: usize) -> u64
        ensures { result ≡ cell self.entry.bytes.now self.entry.count p }
    {
        if self.count == 0 {
            return 0;
        }
        if p < self.count {
            return cell_at(self.bytes, p);
        }
        cell_at(self.bytes, p % self.count)
    }

    // The word of k cells from p, the first its highest bit; a k above 64 counts as 64.
    pub fn word(self, p: usize, k: usize) -> u64
        ensures { result ≡ word_at self.entry.bytes.now self.entry.count p k }
    {
        if self.count == 0 {
            return 0;
        }
        self.last_cells(p, k.min(64))
    }

    // The least place from `from` and before `to`, counted on past the track's end, at which the word x of k cells stands. Where there is
    // none, the greater of the two.
    pub fn find_word(self, x: u64, k: usize, from: usize, to: usize) -> usize
        ensures { result ≡ least_place self.entry.bytes.now self.entry.count k x from to }
    {
        if to <= from {
            return from;
        }
        if self.count == 0 {
            return find_among_zeros(x, from, to);
        }
        let length = k.min(64);
        if length == 0 {
            return find_among_zeros(x, from, to);
        }
        let search = Search {
            cells: self,
            x,
            k: length,
        };
        search.in_turn(from, to)
    }

    // The last 64 of the k cells from p.
    fn last_cells(self, p: usize, k: usize) -> u64
        requires { 0 < self.count }
        ensures { result ≡ word (cell self.entry.bytes.now self.entry.count) k p % 2 ^ 64 }
    {
        let mut cells: u64 = 0;
        let mut at = p % self.count;
        for _ in 0..k {
            cells = append(cells, cell_at(self.bytes, at));
            at = next_place(at, self.count);
        }
        cells
    }
}

// A search for the word x of k cells, 1 to 64 of them, on a track that has cells.
#[derive(Clone, Copy)]
struct Search<'a> {
    cells: Cells<'a>,
    x: u64,
    k: usize,
    ghost some: { 0 < cells.count },
    ghost any: { 1 ≤ k },
    ghost few: { k ≤ 64 },
}

impl<'a> Search<'a> {
    // As in_range, in at most one turn of the track: after a turn the words come again.
    fn in_turn(self, from: usize, to: usize) -> usize
        requires { from ≤ to }
        ensures { result ≡ least_place self.entry.cells.bytes.now self.entry.cells.count self.entry.k self.entry.x from to }
    {
        let n = self.cells.count;
        if to - from <= n {
            return self.in_range(from, to);
        }
        let turn = from + n;
        let p = self.in_range(from, turn);
        if p < turn { p } else { to }
    }

    // The last cells are carried along: each place costs one cell more, and eight places one byte where it lies whole on the track and the
    // word stands at none of them. A `for` cannot take steps of 1 or 8.
    fn in_range(self, from: usize, to: usize) -> usize
        requires { from ≤ to }
        ensures { result ≡ least_place self.entry.cells.bytes.now self.entry.cells.count self.entry.k self.entry.x from to }
    {
        let Cells { bytes, count } = self.cells;
        let mask = 0xFFFF_FFFF_FFFF_FFFF >> (64 - self.k);
        let mut so_far = self.cells.last_cells(from, self.k);
        let mut at = place_after(from, self.k, count);
        let mut p = from;
        while p < to {
            if self.skips_eight(at, so_far, to - p) {
                so_far = append_byte(so_far, byte_at(bytes, at / 8));
                at = next_byte(at, count);
                p += 8;
            } else {
                if so_far & mask == self.x {
                    return p;
                }
                so_far = append(so_far, cell_at(bytes, at));
                at = next_place(at, count);
                p += 1;
            }
        }
        to
    }

    // Whether the next eight cells are a whole byte, eight places are left to look at, and the word stands at none of them.
    fn skips_eight(self, at: usize, so_far: u64, left: usize) -> bool
        requires { at < self.cells.count }
        ensures { result ≡ true → Skipped self.entry.cells.bytes.now self.entry.cells.count at so_far self.entry.k self.entry.x left }
    {
        let Cells { bytes, count } = self.cells;
        if 56 < self.k || left < 8 || 0 < at % 8 || count - at < 8 {
            return false;
        }
        !self.stands_in(append_byte(so_far, byte_at(bytes, at / 8)))
    }

    // Whether the word ends at one of the last nine cells but the very last.
    fn stands_in(self, so_far: u64) -> bool
        ensures { result ≡ false → (j : ℕ) → j < 8 → so_far / 2 ^ (8 - j) % 2 ^ self.entry.k ≡ self.entry.x → ⊥ }
    {
        let mask = 0xFFFF_FFFF_FFFF_FFFF >> (64 - self.k);
        for j in 0..8usize {
            if (so_far >> (8 - j)) & mask == self.x {
                return true;
            }
        }
        false
    }
}

// Sets the first k bytes, or all where there are fewer, to 0.
#[tactic(auto, unfolding(crate::specs::CellsAndBytes::cleared))]
pub fn clear(bytes: &mut [u8], k: usize)
    ensures { bytes.new ≡ cleared k bytes.old }
{
    let end = k.min(bytes.len());
    bytes[..end].fill(0);
}

// Puts a one at cell p, where the bytes have such a cell.
pub fn put_one(bytes: &mut [u8], p: usize)
    ensures { bytes.new ≡ with_one bytes.old p }
{
    let k = p / 8;
    if k < bytes.len() {
        bytes[k] = bytes[k] | (1 << (7 - p % 8));
    }
}

// Byte i; past the end 0.
fn byte_at(bytes: &[u8], i: usize) -> u64
    ensures { (result ≡ get_or bytes.now i 0) × (result < 256) }
{
    if i < bytes.len() {
        u64::from(bytes[i])
    } else {
        0
    }
}

// The cells so far, of which only the last 64 are kept, and those of a byte more.
fn append_byte(cells: u64, byte: u64) -> u64
    requires { byte < 256 }
    ensures { result ≡ (cells * 256 + byte) % 2 ^ 64 }
{
    (cells % 0x0100_0000_0000_0000) * 256 + byte
}

// The place eight after `at`, where that is at most n, round a track of n cells.
fn next_byte(at: usize, n: usize) -> usize
    requires { (at < n) × (at + 8 ≤ n) }
    ensures { result ≡ (at + 8) % n }
{
    if at + 8 == n { 0 } else { at + 8 }
}

// The search of find_word, where every word is 0: on a track without cells, or of a word without cells.
fn find_among_zeros(x: u64, from: usize, to: usize) -> usize
    ensures { result ≡ cond (eqb x 0) from to }
{
    if x == 0 { from } else { to }
}

// The cells so far, of which only the last 64 are kept, and one more.
fn append(cells: u64, cell: u64) -> u64
    requires { cell < 2 }
    ensures { result ≡ (cells * 2 + cell) % 2 ^ 64 }
{
    (cells % 0x8000_0000_0000_0000) * 2 + cell
}

// The place after `at`, round a track of n cells.
fn next_place(at: usize, n: usize) -> usize
    requires { at < n }
    ensures { result ≡ (at + 1) % n }
{
    if at + 1 == n { 0 } else { at + 1 }
}

// The place k after `from`, round a track of n cells.
fn place_after(from: usize, k: usize, n: usize) -> usize
    requires { 0 < n }
    ensures { result ≡ (from + k) % n }
{
    let at = from % n;
    let left = n - at;
    if k < left { at + k } else { (k - left) % n }
}

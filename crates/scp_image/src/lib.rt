// Whole SuperCard Pro images: the header, where the track blocks are, and the check sum. Of an image the first 688 bytes are handed over, and how
// many bytes it has; no number in it is trusted.
#![tactic(auto)]

ghost use Rattle.std.specs.Prelude.{◌≡◌, ◌+◌, ◌*◌, ◌<◌, ◌≤◌, min, not, ◌||◌, length, drop, if◌then◌else◌, ◌==◌};
ghost use Rattle.basis.specs.Bytes.{number};
ghost use Rattle.basis.specs.Lists.{listed, written_over};
ghost use Rattle.basis.specs.Search.{count};
ghost use Rattle.refusals.specs.RefusedCalls.{answer_of, answer_by};
ghost use Rattle.refusals.specs.RefusedCalls.Answer.{gives};
ghost use Rattle.scp_image.specs.Header.{may_change, fault_among, fault_of, header_judged, header_numbers, header_answer, header_after, place_below};
ghost use Rattle.scp_image.specs.Entries.{start_of, is_there, limit_of, nearer, end_of, other_side, misplaced, bad_entry, first_bad, place_number, entries_answer, entries_after};
ghost use Rattle.scp_image.specs.CheckSum.{sum_after, check_answer};
ghost use Rattle.scp_image.specs.Laws.{WellPlaced, AllSummed};

use refusals::Refusal;

// The first 688 bytes of an image, or more, and how many bytes it has, where its header is taken.
#[derive(Clone, Copy)]
struct Head<'a> {
    first: &'a [u8],
    image_length: u32,
    ghost long: { 688 ≤ length first.now },
    ghost whole: { 688 ≤ image_length },
}

// The ten numbers of the header, to the front of a list (rule 9.71).
#[tactic(auto, unfolding(crate::specs::Header::header_judged, refusals::specs::RefusedCalls::buffer_after))]
pub fn image_header(
    first: &[u8],
    image_length: usize,
    numbers: &mut [u32],
) -> Result<usize, Refusal>
    ensures answer { answer_of result ≡ header_answer first.now image_length }
    ensures list { numbers.new ≡ header_after first.now image_length numbers.old }
{
    let head = judge(first, image_length)?;
    basis::copy(&head.numbers(), numbers);
    Ok(10)
}

// Where the block of each entry begins, and before what it has to end, to the front of a list (rule 9.72).
#[tactic(auto, unfolding(crate::specs::Header::header_judged, refusals::specs::RefusedCalls::buffer_after))]
pub fn image_entries(
    first: &[u8],
    image_length: usize,
    places: &mut [u32],
) -> Result<usize, Refusal>
    ensures answer { answer_of result ≡ entries_answer first.now image_length }
    ensures list { places.new ≡ entries_after first.now image_length places.old }
    ensures placed { WellPlaced first.now image_length (answer_of result) }
{
    let head = judge(first, image_length)?;
    if let Some(entry) = head.first_bad() {
        return Err(Refusal::ImageEntry(entry));
    }
    head.write_places(places);
    Ok(head.tracks_there())
}

// The sum of bytes after a portion more, from the sum that those before it left (rule 9.73).
pub fn image_sum(sum: u32, portion: &[u8]) -> u32
    ensures sum { result ≡ sum_after sum portion.now }
    ensures all { AllSummed sum portion.now result }
{
    let mut all = sum;
    for byte in portion {
        all = all.wrapping_add(u32::from(*byte));
    }
    all
}

// Whether the sum of the bytes is the one that the header says (rule 9.74).
#[tactic(auto, unfolding(crate::specs::Header::header_judged))]
pub fn image_check(first: &[u8], image_length: usize, sum: u32) -> Result<usize, Refusal>
    ensures { answer_of result ≡ check_answer first.now image_length sum }
{
    let head = judge(first, image_length)?;
    if sum_good(first[8], sum, head.number_at(12)) {
        return Ok(sum as usize);
    }
    Err(Refusal::ImageCheckSum(sum as usize))
}

// The head of an image, with the two refusals that all calls on one have (rules 19.5 and 19.6).
#[tactic(auto, unfolding(crate::specs::Header::header_judged, crate::specs::Header::not_an_image))]
fn judge(first: &[u8], image_length: usize) -> Result<Head<'_>, Refusal>
    ensures first { answer_by (λ head. head.first) result ≡ header_judged first.now image_length (gives first.entry) }
    ensures length { answer_by (λ head. head.image_length) result ≡ header_judged first.now image_length (gives image_length) }
{
    if first.len() < 688 || image_length < 688 || image_length > 4_294_967_295 {
        return Err(Refusal::NotAnImage);
    }
    if !first.starts_with(b"SCP") {
        return Err(Refusal::NotAnImage);
    }
    let head = Head {
        first,
        image_length: image_length as u32,
    };
    match head.fault() {
        None => Ok(head),
        Some(place) => Err(Refusal::ImageHeader(place)),
    }
}

impl<'a> Head<'a> {
    // The place of the first byte of the header that is not taken.
    fn fault(self) -> Option<usize>
        ensures { result ≡ place_below 12 (fault_of self.entry.first.now) }
    {
        let first = self.first;
        fault_among(
            first[5], first[6], first[7], first[8], first[9], first[10], first[11],
        )
    }

    #[tactic(auto, unfolding(crate::specs::Header::header_numbers))]
    fn numbers(self) -> [u32; 10]
        ensures { result ≡ header_numbers self.entry.first.now }
    {
        let first = self.first;
        [
            u32::from(first[3]),
            u32::from(first[4]),
            u32::from(first[5]),
            u32::from(first[6]),
            u32::from(first[7]),
            u32::from(first[8]),
            u32::from(first[9]),
            u32::from(first[10]),
            u32::from(first[11]),
            self.number_at(12),
        ]
    }

    // The number of four bytes at a place, the lowest first.
    #[tactic(auto, using(crate::proofs::Judging::number_here))]
    fn number_at(self, place: usize) -> u32
        requires { place ≤ 684 }
        ensures { result ≡ number (drop place self.entry.first.now) }
    {
        let first = self.first;
        basis::four_bytes(
            first[place],
            first[place + 1],
            first[place + 2],
            first[place + 3],
        )
    }

    fn start_of(self, entry: usize) -> u32
        requires { entry < 168 }
        ensures { result ≡ start_of self.entry.first.now entry }
    {
        self.number_at(16 + 4 * entry)
    }

    // Where the blocks end at the latest: a footer has 48 bytes.
    #[tactic(auto, unfolding(crate::specs::Entries::blocks_end))]
    fn limit(self) -> u32
        ensures { result ≡ limit_of self.entry.first.now self.entry.image_length }
    {
        if self.first[8] / 32 % 2 == 1 {
            return self.image_length - 48;
        }
        self.image_length
    }

    // Before what the block of an entry has to end.
    #[tactic(auto, unfolding(crate::specs::Entries::end_among))]
    fn end_of(self, entry: usize) -> u32
        requires { entry < 168 }
        ensures { result ≡ end_of self.entry.first.now (limit_of self.entry.first.now self.entry.image_length) entry }
    {
        let start = self.start_of(entry);
        let mut end = self.limit();
        for other in 0..168 {
            end = nearer(entry, other, start, self.start_of(other), end);
        }
        end
    }

    // The first entry whose block cannot stand where it is said to begin.
    fn first_bad(self) -> Option<usize>
        ensures { result ≡ place_below 168 (first_bad self.entry.first.now (limit_of self.entry.first.now self.entry.image_length)) }
    {
        for entry in 0..168 {
            if self.bad_entry(entry) {
                return Some(entry);
            }
        }
        None
    }

    fn bad_entry(self, entry: usize) -> bool
        requires { entry < 168 }
        ensures { result ≡ bad_entry self.entry.first.now (limit_of self.entry.first.now self.entry.image_length) entry }
    {
        let first = self.first;
        misplaced(
            first[5],
            first[6],
            first[7],
            first[10],
            entry,
            self.start_of(entry),
            self.end_of(entry),
        )
    }

    // The numbers of the entries, as many as there is room for.
    fn write_places(self, places: &mut [u32])
        ensures { places.new ≡ written_over (listed (place_number self.entry.first.now (limit_of self.entry.first.now self.entry.image_length)) (min (length places.old) 336)) places.old }
    {
        for i in 0..places.len().min(336) {
            places[i] = self.place_number(i);
        }
    }

    #[tactic(auto, unfolding(crate::specs::Entries::place_number))]
    fn place_number(self, i: usize) -> u32
        requires { i < 336 }
        ensures { result ≡ place_number self.entry.first.now (limit_of self.entry.first.now self.entry.image_length) i }
    {
        let start = self.start_of(i / 2);
        if i % 2 == 0 || start == 0 {
            return start;
        }
        self.end_of(i / 2)
    }

    // How many entries have a block.
    fn tracks_there(self) -> usize
        ensures { result ≡ count (is_there self.entry.first.now) 168 0 }
    {
        let mut tracks: usize = 0;
        for entry in 0..168 {
            tracks += usize::from(self.start_of(entry) != 0);
        }
        tracks
    }
}

#[tactic(auto, unfolding(crate::specs::Header::fault_among))]
fn fault_among(
    revolutions: u8,
    first: u8,
    last: u8,
    flags: u8,
    width: u8,
    heads: u8,
    resolution: u8,
) -> Option<usize>
    ensures { result ≡ place_below 12 (fault_among revolutions first last flags width heads resolution) }
{
    if revolutions == 0 {
        return Some(5);
    }
    if last < first {
        return Some(6);
    }
    if last > 167 {
        return Some(7);
    }
    if flags / 64 % 2 == 1 {
        return Some(8);
    }
    if width != 0 && width != 16 {
        return Some(9);
    }
    if heads > 2 {
        return Some(10);
    }
    if resolution != 0 {
        return Some(11);
    }
    None
}

#[tactic(auto, unfolding(crate::specs::Entries::nearer))]
fn nearer(entry: usize, other_entry: usize, start: u32, other: u32, end: u32) -> u32
    ensures { result ≡ nearer entry other_entry start other end }
{
    if other_entry != entry && start <= other && other < end {
        other
    } else {
        end
    }
}

#[tactic(auto, unfolding(crate::specs::Entries::misplaced))]
fn misplaced(
    revolutions: u8,
    first: u8,
    last: u8,
    heads: u8,
    entry: usize,
    start: u32,
    end: u32,
) -> bool
    ensures { result ≡ misplaced revolutions first last heads entry start end }
{
    start != 0
        && (entry < usize::from(first)
            || usize::from(last) < entry
            || other_side(heads, entry)
            || start < 688
            || (end as usize) < start as usize + (4 + 12 * usize::from(revolutions)))
}

fn other_side(heads: u8, entry: usize) -> bool
    ensures { result ≡ other_side heads entry }
{
    heads == 1 && entry % 2 == 1 || heads == 2 && entry % 2 == 0
}

// Whether a sum is the one in the header, or is not judged.
fn sum_good(flags: u8, sum: u32, said: u32) -> bool
    ensures { result ≡ (may_change flags || sum == said) }
{
    flags / 16 % 2 == 1 || sum == said
}

// Two reads of one sector, by section 14 of the specification: where they differ, and the part of a read whose check is good. A read is the
// data bytes of a sector with the two check bytes behind them.
#![tactic(auto)]

ghost use Rattle.std.specs.Prelude.{◌≡◌, ℕ, ◌≤◌, ◌<◌, Ok, Some, true, length, unwrap_or};
ghost use Rattle.refusals.specs.RefusedCalls.{answer_of, answer_by};
ghost use Rattle.refusals.specs.RefusedCalls.Answer.{gives};
ghost use Rattle.two_reads.specs.Comparison.{pair_judged, is_read_length, findings_in, numbers_in, first_difference, differing_bits, comparison, fuzzy_numbers, numbers_given};
ghost use Rattle.two_reads.specs.GoodRead.{check_is_good, part_answer, part_given, good_part_answer, IsPart};

use refusals::Refusal;

// The part of a read whose check is good: whether it is of the second read, and how many of its first bytes.
#[derive(Clone, Copy, Debug)]
pub struct GoodPart {
    pub second: bool,
    pub count: usize,
}

// The kind of the finding: FZD.
pub const FUZZY: u32 = 22;

// The four numbers of FZD, where two reads differ: its place is the least index at which they do, its detail how many bits differ. The data mark is
// part of no read, so it changes nothing here.
#[tactic(auto, unfolding(crate::specs::Comparison::pair_judged, crate::specs::Comparison::comparison, crate::specs::Comparison::fuzzy_numbers))]
pub fn compare_reads(
    first: &[u8],
    second: &[u8],
    data_mark: u8,
) -> Result<Option<[u32; 4]>, Refusal>
    ensures answer { answer_by findings_in result ≡ comparison first.now second.now }
    ensures numbers { numbers_in result ≡ numbers_given (comparison first.now second.now) (fuzzy_numbers first.now second.now) }
{
    judge_pair(first, second)?;
    match first_difference(first, second) {
        None => Ok(None),
        Some(place) => Ok(Some([
            FUZZY,
            levels::level(FUZZY as usize - 1),
            place as u32,
            differing_bits(first, second),
        ])),
    }
}

// The data bytes of whichever read has a good check, as a part of that read: of the first where both are good. Where neither is, and where
// the reads are refused, an empty part of the first.
pub fn good_read<'a>(first: &'a [u8], second: &'a [u8], data_mark: u8) -> &'a [u8]
    ensures { IsPart result first.entry second.entry (part_given (part_answer first.now second.now data_mark)) }
{
    match good_part(first, second, data_mark) {
        Ok(part) => {
            if part.second {
                return &second[..part.count];
            }
            &first[..part.count]
        }
        Err(_) => &first[..0],
    }
}

// Which read that part is of, and how long it is, for callers who need to know.
#[tactic(auto, unfolding(crate::specs::Comparison::pair_judged, crate::specs::GoodRead::part_answer, crate::specs::GoodRead::good_part_of))]
pub fn good_part(first: &[u8], second: &[u8], data_mark: u8) -> Result<GoodPart, Refusal>
    ensures { good_part_answer result ≡ part_answer first.now second.now data_mark }
{
    judge_pair(first, second)?;
    if is_good(first, data_mark) {
        return Ok(GoodPart {
            second: false,
            count: first.len() - CHECK_BYTES,
        });
    }
    if is_good(second, data_mark) {
        return Ok(GoodPart {
            second: true,
            count: second.len() - CHECK_BYTES,
        });
    }
    Ok(GoodPart {
        second: false,
        count: 0,
    })
}

// How many check bytes a read ends with.
const CHECK_BYTES: usize = 2;

// Whether two reads have the same length, and that of a read (rule 14.2).
#[tactic(auto, unfolding(crate::specs::Comparison::pair_judged))]
fn judge_pair(first: &[u8], second: &[u8]) -> Result<(), Refusal>
    ensures answer { answer_of result ≡ pair_judged first.now second.now (gives tt) }
    ensures lengths { (u : Unit) → result ≡ Ok u → (length first.now ≡ length second.now) × (2 ≤ length first.now) × (length first.now ≤ 1026) }
{
    if first.len() != second.len() {
        return Err(Refusal::LengthsDiffer);
    }
    if !is_read_length(first.len()) {
        return Err(Refusal::NotASectorLength);
    }
    Ok(())
}

// Whether a read may have n bytes: 128, 256, 512 or 1,024 data bytes, and the check bytes.
#[tactic(auto, unfolding(crate::specs::Comparison::is_read_length))]
fn is_read_length(n: usize) -> bool
    ensures length { result ≡ is_read_length n }
    ensures bounds { result ≡ true → (2 ≤ n) × (n ≤ 1026) }
{
    matches!(n, 130 | 258 | 514 | 1026)
}

// The least index at which the reads differ.
fn first_difference(first: &[u8], second: &[u8]) -> Option<usize>
    requires { length first.now ≡ length second.now }
    ensures least { unwrap_or result (length first.now) ≡ first_difference first.now second.now }
    ensures inside { (i : ℕ) → result ≡ Some i → i < length first.now }
{
    for i in 0..first.len() {
        if first[i] != second[i] {
            return Some(i);
        }
    }
    None
}

// How many bits differ. With at most 1,026 bytes these are at most 8,208.
fn differing_bits(first: &[u8], second: &[u8]) -> u32
    requires { (length first.now ≡ length second.now) × (length first.now ≤ 1026) }
    ensures { result ≡ differing_bits first.now second.now }
{
    let mut bits: u32 = 0;
    for i in 0..first.len() {
        bits += (first[i] ^ second[i]).count_ones();
    }
    bits
}

// Whether the check of a read is good.
#[tactic(auto, unfolding(crate::specs::GoodRead::check_is_good))]
fn is_good(read: &[u8], data_mark: u8) -> bool
    requires { 2 ≤ length read.now }
    ensures { result ≡ check_is_good read.now data_mark }
{
    let size = read.len() - CHECK_BYTES;
    let before = crc::check_word(&[0xA1, 0xA1, 0xA1, data_mark]);
    crc::check_word_from(before, &read[..size]) == u16::from_be_bytes([read[size], read[size + 1]])
}

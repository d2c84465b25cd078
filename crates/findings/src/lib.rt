// The copy-protection findings of a track, of 21 kinds, in the caller's list: kind after kind, and each kind by place (rule 7.32).
#![tactic(auto)]

ghost use Rattle.std.specs.Prelude.{◌≡◌, ◌+◌, ◌*◌, ◌/◌, ◌%◌, ◌<◌, ◌≤◌, ℕ, length, take};
ghost use Rattle.finding_list.specs.Calls.{sectors_given, sectors_found, numbers_of};
ghost use Rattle.finding_list.specs.Findings.{findings_of};
ghost use Rattle.findings.specs.Calls.{findings_answer, list_after, numbers_after};
ghost use Rattle.findings.specs.PrivateContracts.{finding_at, Numbered};
ghost use Rattle.refusals.specs.RefusedCalls.{answer_of, answer_by};
ghost use Rattle.refusals.specs.RefusedCalls.Answer.{gives};
ghost use Rattle.layouts.specs.Layouts.{layout_of};
ghost use Rattle.sector_records.specs.Sectors.{sectors_of};

use finding_list::NUMBERS;
pub use finding_list::{Finding, Found};
pub use layouts::Density;
use refusals::Refusal;
use sectors::Track;

// The findings of a track at the front of the list, and what follows is kept (rules 9.1, 9.44).
pub fn findings(density: Density, track: Track, list: &mut [Finding]) -> Result<usize, Refusal>
    ensures answer { answer_of result ≡ findings_answer (layout_of density) track.entry.cells.bytes.now track.entry.cells.count track.entry.track track.entry.side (length list.old) }
    ensures list { list.new ≡ list_after (layout_of density) track.entry.cells.bytes.now track.entry.cells.count track.entry.track track.entry.side list.old }
{
    let mut numbers = [0; NUMBERS];
    let found = in_room(density, &mut numbers, track, list.len())?;
    for i in 0..found.findings {
        list[i] = finding_at(&numbers, i);
    }
    Ok(found.findings)
}

// The findings of a track as numbers at the front of the list: kind, level, place and detail of each (rules 9.24, 9.45).
pub fn findings_as_numbers(
    density: Density,
    track: Track,
    list: &mut [u32],
) -> Result<Found, Refusal>
    ensures answer { answer_by (λ found. found.findings) result ≡ findings_answer (layout_of density) track.entry.cells.bytes.now track.entry.cells.count track.entry.track track.entry.side (length list.old / 4) }
    ensures sectors { sectors_found result ≡ sectors_given (findings_answer (layout_of density) track.entry.cells.bytes.now track.entry.cells.count track.entry.track track.entry.side (length list.old / 4)) (length (sectors_of (layout_of density) track.entry.cells.bytes.now track.entry.cells.count)) }
    ensures list { list.new ≡ numbers_after (layout_of density) track.entry.cells.bytes.now track.entry.cells.count track.entry.track track.entry.side list.old }
{
    let mut numbers = [0; NUMBERS];
    let found = in_room(density, &mut numbers, track, list.len() / 4)?;
    basis::copy(&numbers[..4 * found.findings], list);
    Ok(found)
}

// The findings as numbers, for a list with room for `room` of them. 3,604 numbers are enough: with 64 sectors there are at most 901 findings.
fn in_room(
    density: Density,
    numbers: &mut [u32; NUMBERS],
    track: Track,
    room: usize,
) -> Result<Found, Refusal>
    ensures answer { answer_by (λ found. found.findings) result ≡ findings_answer (layout_of density) track.entry.cells.bytes.now track.entry.cells.count track.entry.track track.entry.side room }
    ensures sectors { sectors_found result ≡ sectors_given (findings_answer (layout_of density) track.entry.cells.bytes.now track.entry.cells.count track.entry.track track.entry.side room) (length (sectors_of (layout_of density) track.entry.cells.bytes.now track.entry.cells.count)) }
    ensures numbers { (count : ℕ) → findings_answer (layout_of density) track.entry.cells.bytes.now track.entry.cells.count track.entry.track track.entry.side room ≡ gives count → Numbered numbers.new count room (findings_of (layout_of density) track.entry.cells.bytes.now track.entry.cells.count track.entry.track) }
{
    let listed = finding_list::survey(density, numbers, track)?;
    if room < listed.findings {
        return Err(Refusal::ListTooShort(listed.findings));
    }
    Ok(listed)
}

// Finding i of those that stand in the numbers.
#[tactic(auto, unfolding(crate::specs::PrivateContracts::finding_at))]
fn finding_at(numbers: &[u32; NUMBERS], i: usize) -> Finding
    requires { 4 * i + 3 < 3604 }
    ensures { result ≡ finding_at numbers.now i }
{
    Finding {
        kind: low(numbers[4 * i]),
        level: low(numbers[4 * i + 1]),
        place: numbers[4 * i + 2],
        detail: numbers[4 * i + 3],
    }
}

// The lowest byte of a number.
fn low(x: u32) -> u8
    ensures { result ≡ x % 256 }
{
    (x % 256) as u8
}

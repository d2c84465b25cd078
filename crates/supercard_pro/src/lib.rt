// Track blocks of SuperCard Pro images: the timings of one revolution, from a whole block.
//
// A block is the letters TRK, the track number, a table with twelve bytes for each revolution, and the values of the revolutions, which
// stand where the table says.
#![tactic(auto)]

ghost use Rattle.std.specs.Prelude.{◌≡◌, ◌+◌, ◌*◌, ◌≤◌, ◌<◌, cond, length, drop};
ghost use Rattle.basis.specs.Bytes.{number};
ghost use Rattle.refusals.specs.RefusedCalls.{answer_of, answer_by};
ghost use Rattle.refusals.specs.RefusedCalls.Answer.{gives, refused};
ghost use Rattle.supercard_pro.specs.TrackBlock.{value_count, value_offset, table_end, bad_revolution, some_bad, not_a_track_block, block_answer, block_timings};

use refusals::Refusal;
use revolution_portions::RevolutionReader;
use revolution_values::two_bytes;

// A block whose table of so many revolutions is whole.
#[derive(Clone, Copy)]
struct Table<'a> {
    block: &'a [u8],
    revolutions: u32,
    ghost whole: { table_end revolutions ≤ length block.now },
}

// The timings of one revolution of a block, counted from 0, in nanoseconds, to the front of a list (rule 9.14). `revolutions` is
// their number in the image's header.
#[tactic(auto, unfolding(crate::specs::TrackBlock::block_judged, refusals::specs::RefusedCalls::buffer_after))]
pub fn revolution_timings(
    block: &[u8],
    revolutions: u32,
    revolution: u32,
    timings: &mut [u32],
) -> Result<usize, Refusal>
    ensures answer { answer_of result ≡ block_answer block.now revolutions revolution (length timings.old) }
    ensures list { timings.new ≡ block_timings block.now revolutions revolution timings.old }
{
    let table = judge(block, revolutions)?;
    if revolutions <= revolution {
        return Err(Refusal::NoSuchRevolution);
    }
    let count = table.value_count(revolution);
    if count == 0 {
        return Err(Refusal::NoTimings);
    }
    let from = table.value_offset(revolution);
    let to = from + 2 * count;
    let mut reader = RevolutionReader::new();
    reader.take(&block[from..to], timings)
}

// The table of a block, where this is not refused with 16 (rule 12.8).
#[tactic(auto, unfolding(crate::specs::TrackBlock::not_a_track_block))]
fn judge(block: &[u8], revolutions: u32) -> Result<Table<'_>, Refusal>
    ensures block { answer_by (λ table. table.block) result ≡ cond (not_a_track_block block.now revolutions) (refused 16 0) (gives block.entry) }
    ensures revolutions { answer_by (λ table. table.revolutions) result ≡ cond (not_a_track_block block.now revolutions) (refused 16 0) (gives revolutions) }
{
    if block.len() < table_end(revolutions) {
        return Err(Refusal::NotATrackBlock);
    }
    let table = Table { block, revolutions };
    if !block.starts_with(b"TRK") || table.some_bad() {
        return Err(Refusal::NotATrackBlock);
    }
    Ok(table)
}

// Where the table ends.
fn table_end(revolutions: u32) -> usize
    ensures { result ≡ table_end revolutions }
{
    4 + 12 * (revolutions as usize)
}

impl<'a> Table<'a> {
    // Whether some revolution's values are bad.
    fn some_bad(self) -> bool
        ensures { result ≡ some_bad self.entry.block.now self.entry.revolutions }
    {
        for k in 0..self.revolutions {
            if self.bad_revolution(k) {
                return true;
            }
        }
        false
    }

    // Whether the values of a revolution are bad: they start before the table's end, end after the block's, or have a 0 at their end.
    fn bad_revolution(self, k: u32) -> bool
        requires { k < self.revolutions }
        ensures { result ≡ bad_revolution self.entry.block.now self.entry.revolutions k }
    {
        let block = self.block;
        let from = self.value_offset(k);
        if from < table_end(self.revolutions) {
            return true;
        }
        let count = self.value_count(k);
        let to = from + 2 * count;
        if block.len() < to {
            return true;
        }
        if count == 0 {
            return false;
        }
        two_bytes(block[to - 2], block[to - 1]) == 0
    }

    // The number of a revolution's values, and where they start.
    fn value_count(self, k: u32) -> usize
        requires { k < self.revolutions }
        ensures is { result ≡ value_count self.entry.block.now k }
        ensures small { result < 4294967296 }
    {
        self.number_at(8 + 12 * (k as usize)) as usize
    }

    fn value_offset(self, k: u32) -> usize
        requires { k < self.revolutions }
        ensures is { result ≡ value_offset self.entry.block.now k }
        ensures small { result < 4294967296 }
    {
        self.number_at(12 + 12 * (k as usize)) as usize
    }

    // The number of 32 bits at byte `at`, low byte first.
    #[tactic(auto, using(crate::proofs::Revolutions::number_here))]
    fn number_at(self, at: usize) -> u32
        requires { at + 4 ≤ length self.block.now }
        ensures { result ≡ number (drop at self.entry.block.now) }
    {
        let block = self.block;
        basis::four_bytes(block[at], block[at + 1], block[at + 2], block[at + 3])
    }
}

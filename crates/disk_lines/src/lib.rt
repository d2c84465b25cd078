// The line of an entry of a disk's page, as bytes: track and side, and the line of a finding.
#![tactic(auto)]

ghost use Rattle.std.specs.Prelude.{◌≡◌};
ghost use Rattle.lines.specs.Lines.{digit as digit_of};
ghost use Rattle.lines.specs.Writing.{Wrote};
ghost use Rattle.disk_lines.specs.EntryLines.{start_of, entry_line};

// The line at the front of a lent buffer, as much of it as there is room for. The answer is the number of bytes of the whole line.
// The clause speaks of any kind and level, so they are no enums.
pub fn entry_line(
    out: &mut [u8],
    side: u32,
    first: u32,
    last: u32,
    kind: u32,
    level: u32,
    place: u32,
    detail: u32,
) -> usize
    ensures { Wrote out.old 0 (entry_line side first last kind level place detail) 80 out.new result }
{
    let next = write_start(out, side, first, last);
    let from = next.min(out.len());
    let length = lines::finding_line(&mut out[from..], kind, level, place, detail);
    next + length
}

// What stands before the line of a finding.
fn write_start(out: &mut [u8], side: u32, first: u32, last: u32) -> usize
    ensures { Wrote out.old 0 (start_of side first last) 10 out.new result }
{
    let a = digit(first / 10);
    let b = digit(first);
    let s = digit(side);
    if first < last {
        let c = digit(last / 10);
        let d = digit(last);
        basis::copy(&[b'T', a, b, b'-', c, d, b' ', b'H', s, b' '], out);
        return 10;
    }
    basis::copy(&[b'T', a, b, b' ', b'H', s, b' '], out);
    7
}

// The last decimal digit of a number, as a character. lines has it too, for itself: a public one there would be one promise more.
#[tactic(auto, unfolding(lines::specs::Lines::digit))]
fn digit(n: u32) -> u8
    ensures { result ≡ digit_of n }
{
    b'0' + (n % 10) as u8
}

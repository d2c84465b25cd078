// Lines of text as bytes, made of numbers alone: the header of a listing, the line of a finding, the line of a refusal. What there is no room
// for is not written. The functions without a place write to the front of the lent buffer and answer the number of bytes of the whole.
#![tactic(auto)]

ghost use Rattle.std.specs.Prelude.{◌≡◌, ◌∷◌, [], ◌++◌, ◌+◌, ◌<◌, ◌≤◌, length};
ghost use Rattle.lines.specs.Lines.{digit, decimal_of, two_digits, name_of, header_of, finding_line, refused_line, out_after};
ghost use Rattle.lines.specs.Writing.{Wrote};
ghost use Rattle.lines.specs.PrivateContracts.{WroteOn};

// The header line.
pub fn header(
    out: &mut [u8],
    track: u32,
    side: u32,
    cells: u32,
    sectors: u32,
    findings: u32,
) -> usize
    ensures answer { result ≡ length (header_of track side cells sectors findings) }
    ensures out { out.new ≡ out_after (header_of track side cells sectors findings) out.old }
{
    let mut line = Line { out, at: 0 };
    line.byte(b'T');
    line.two_digits(track);
    line.field(b" H", side);
    line.field(b" cells ", cells);
    line.field(b" sectors ", sectors);
    line.field(b" findings ", findings);
    line.byte(b'\n');
    line.at
}

// The line of a finding, without anything before it. A number that is no kind has no name; the clause speaks of any number, so `kind` is no enum.
pub fn finding_line(out: &mut [u8], kind: u32, level: u32, place: u32, detail: u32) -> usize
    ensures answer { result ≡ length (finding_line kind level place detail) }
    ensures out { out.new ≡ out_after (finding_line kind level place detail) out.old }
{
    finding_line_at(out, 0, kind, level, place, detail)
}

// The line of a finding, from place `at` on; the answer is the place after it. A place of 32 bits leaves room in every sum.
pub fn finding_line_at(
    out: &mut [u8],
    at: u32,
    kind: u32,
    level: u32,
    place: u32,
    detail: u32,
) -> usize
    ensures { Wrote out.old at (finding_line kind level place detail) 67 out.new result }
{
    let mut line = Line {
        out,
        at: at as usize,
    };
    line.number(kind);
    line.byte(b' ');
    line.name(kind);
    line.field(b" level ", level);
    line.field(b" place ", place);
    line.field(b" detail ", detail);
    line.byte(b'\n');
    line.at
}

// The line of a refusal's number.
pub fn refused_line(out: &mut [u8], number: u32) -> usize
    ensures answer { result ≡ length (refused_line number) }
    ensures out { out.new ≡ out_after (refused_line number) out.old }
{
    let mut line = Line { out, at: 0 };
    line.field(b"refused ", number);
    line.byte(b'\n');
    line.at
}

// A track in two digits, without anything before or after them; of a number above 99, the last two.
pub fn two_digits(out: &mut [u8], track: u32) -> usize
    ensures answer { result ≡ 2 }
    ensures out { out.new ≡ out_after (two_digits track) out.old }
{
    let mut line = Line { out, at: 0 };
    line.two_digits(track);
    line.at
}

// The names of the kinds, from kind 1 on.
const NAMES: [[u8; 3]; 22] = [
    *b"LGT", *b"SHT", *b"NOS", *b"TNF", *b"EXT", *b"DSN", *b"ISN", *b"ITN", *b"IIF", *b"SSZ",
    *b"NSI", *b"NSD", *b"SBI", *b"SND", *b"SBD", *b"DOI", *b"DBI", *b"SWS", *b"SID", *b"MTV",
    *b"NFA", *b"FZD",
];

// A lent buffer, and the place in it that is written next. What there is no room for is only counted. No place passes 33 bits, so that no sum
// can overflow.
#[derive(Drop)]
struct Line<'a> {
    out: &'a mut [u8],
    at: usize,
}

impl<'a> Line<'a> {
    // A kind's name: three letters, or none for a number that is no kind.
    fn name(&mut self, kind: u32)
        requires { self.old.at + 3 ≤ 0x1_FFFF_FFFF }
        ensures { WroteOn self.old self.new (name_of kind) 3 }
    {
        if kind < 1 || kind > 22 {
            return;
        }
        self.word(&NAMES[kind as usize - 1]);
    }

    // A word and a number.
    fn field(&mut self, bytes: &[u8], n: u32)
        requires { self.old.at + (length bytes.now + 10) ≤ 0x1_FFFF_FFFF }
        ensures { WroteOn self.old self.new (bytes.now ++ decimal_of n) (length bytes.now + 10) }
    {
        self.word(bytes);
        self.number(n);
    }

    // The last two digits of a number.
    fn two_digits(&mut self, n: u32)
        requires { self.old.at + 2 ≤ 0x1_FFFF_FFFF }
        ensures { WroteOn self.old self.new (two_digits n) 2 }
    {
        self.byte(last_digit(n / 10));
        self.byte(last_digit(n));
    }

    // A number in decimal: the digits before the last, and the last.
    fn number(&mut self, n: u32)
        requires { self.old.at + 10 ≤ 0x1_FFFF_FFFF }
        ensures { WroteOn self.old self.new (decimal_of n) 10 }
    {
        if 10 <= n {
            self.number(n / 10);
        }
        self.byte(last_digit(n));
    }

    // The bytes of a word.
    fn word(&mut self, bytes: &[u8])
        requires { self.old.at + length bytes.now ≤ 0x1_FFFF_FFFF }
        ensures { WroteOn self.old self.new bytes.now (length bytes.now) }
    {
        for byte in bytes {
            self.byte(*byte);
        }
    }

    // A byte, where there is room for it.
    fn byte(&mut self, byte: u8)
        requires { self.old.at < 0x1_FFFF_FFFF }
        ensures { WroteOn self.old self.new (byte ∷ []) 1 }
    {
        if self.at < self.out.len() {
            self.out[self.at] = byte;
        }
        self.at += 1;
    }
}

// The last decimal digit of a number, as a character.
#[tactic(auto, unfolding(crate::specs::Lines::digit))]
fn last_digit(n: u32) -> u8
    ensures { result ≡ digit n }
{
    b'0' + (n % 10) as u8
}

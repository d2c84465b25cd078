// A revolution's values, byte by byte: the timings that end in some bytes, and what the bytes leave unfinished.
//
// A value is two bytes. A 0 only adds to the next value, and any other value ends a timing.
#![tactic(auto)]

ghost use Rattle.std.specs.Prelude.{◌≡◌, true, ◌+◌, ◌*◌, ◌/◌, ◌≤◌, ◌<◌, None, [], ◌∷◌, length, set, drop};
ghost use Rattle.std.proofs.lemmas.List.Edits.{sets};
ghost use Rattle.revolution_values.specs.Values.{unfinished_after, timings_ending, out_among, between, capped};
ghost use Rattle.revolution_values.specs.PrivateContracts.{PassedValue, PassedOver, first_out_after, no_zeros};

// The timing that has not ended: the zeros before its value, counted up to 7, and the first byte of its value, where the bytes ended between
// the two.
#[derive(Clone, Copy, Debug)]
pub struct Unfinished {
    pub held: Option<u8>,
    pub zeros: u32,
}

// Bytes passed over: what they leave unfinished, how many timings end in them, and the index of the first that is out of range, where one is.
#[derive(Clone, Copy, Debug)]
pub struct Passed {
    pub unfinished: Unfinished,
    pub count: usize,
    pub out: Option<usize>,
}

// The zeros before a value that are counted: with seven of them no timing is in range.
pub const MOST_ZEROS: u32 = 7;

// A value's unit in nanoseconds, and the units that a 0 adds to the next value.
const UNIT: u32 = 25;

const ADDED_BY_ZERO: u32 = 65_536;

// The same between two values, when nothing is held.
#[derive(Clone, Copy)]
struct Seen {
    zeros: u32,
    count: usize,
    out: Option<usize>,
    ghost few: { zeros ≤ 7 },
}

// Passes over bytes, and stores the timings that end in them from the front of the list on, as far as it reaches.
pub fn pass(unfinished: Unfinished, bytes: &[u8], list: &mut [u32]) -> Passed
    ensures unfinished { result.unfinished ≡ unfinished_after (capped unfinished) bytes.now }
    ensures count { result.count ≡ length (timings_ending (capped unfinished) bytes.now) }
    ensures out { result.out ≡ out_among (timings_ending (capped unfinished) bytes.now) }
    ensures list { list.new ≡ sets list.old 0 (timings_ending (capped unfinished) bytes.now) }
{
    let zeros = unfinished.zeros.min(MOST_ZEROS);
    pass_counted(
        Unfinished {
            held: unfinished.held,
            zeros,
        },
        bytes,
        list,
    )
}

// A value, high byte first.
pub fn two_bytes(high: u8, low: u8) -> u32
    ensures { result ≡ 256 * high + low }
{
    u32::from(u16::from_be_bytes([high, low]))
}

// Passes over bytes, where at most 7 zeros are counted.
fn pass_counted(unfinished: Unfinished, portion: &[u8], list: &mut [u32]) -> Passed
    requires { unfinished.zeros ≤ 7 }
    ensures { PassedOver unfinished 0 None portion.now list.old result.unfinished result.count result.out list.new }
{
    let start = Seen {
        zeros: unfinished.zeros,
        count: 0,
        out: None,
    };
    match unfinished.held {
        None => pass_values(start, portion, list),
        Some(high) => match portion.split_first() {
            None => Passed {
                unfinished,
                count: 0,
                out: None,
            },
            Some((low, rest)) => {
                let seen = pass_value(start, two_bytes(high, *low), list);
                pass_values(seen, rest, list)
            }
        },
    }
}

// Passes over values, where nothing is held. On most tracks no value is a 0, and then all are passed over at once.
fn pass_values(start: Seen, values: &[u8], list: &mut [u32]) -> Passed
    requires { start.count + length values.now < 18446744073709551616 }
    ensures { PassedOver (between start.zeros) start.count start.out values.now list.old result.unfinished result.count result.out list.new }
{
    if start.zeros == 0 && no_zeros(values) {
        return pass_at_once(start, values, list);
    }
    pass_in_turn(start, values, list)
}

// Passes over values, none of which is a 0, where no zeros stand before them: each ends a timing, which is in range.
fn pass_at_once(start: Seen, values: &[u8], list: &mut [u32]) -> Passed
    requires { (no_zeros values.now ≡ true) × (start.count + length values.now < 18446744073709551616) }
    ensures { PassedOver (between 0) start.count start.out values.now list.old result.unfinished result.count result.out list.new }
{
    store_at_once(values, list, start.count);
    Passed {
        unfinished: held_at_end(0, values),
        count: start.count + values.len() / 2,
        out: start.out,
    }
}

// Stores the timings of values, none of which is a 0, from a place of the list on, as far as it reaches. The loop does so little that the
// compiler can store several at once.
fn store_at_once(values: &[u8], list: &mut [u32], at: usize)
    requires { no_zeros values.now ≡ true }
    ensures { list.new ≡ sets list.old at (timings_ending (between 0) values.now) }
{
    if list.len() <= at {
        return;
    }
    for i in 0..(values.len() / 2).min(list.len() - at) {
        list[at + i] = UNIT * two_bytes(values[2 * i], values[2 * i + 1]);
    }
}

// Whether no value of some bytes is a 0. The first byte of a value is looked at only where the second is a 0, which is seldom: the first one
// alone is a 0 in most values of a track.
fn no_zeros(values: &[u8]) -> bool
    ensures { result ≡ no_zeros values.now }
{
    for i in 0..values.len() / 2 {
        if values[2 * i + 1] == 0 && values[2 * i] == 0 {
            return false;
        }
    }
    true
}

// Passes over values, one after the other.
fn pass_in_turn(start: Seen, values: &[u8], list: &mut [u32]) -> Passed
    requires { start.count + length values.now < 18446744073709551616 }
    ensures { PassedOver (between start.zeros) start.count start.out values.now list.old result.unfinished result.count result.out list.new }
{
    let mut seen = start;
    for i in 0..values.len() / 2 {
        seen = pass_value(seen, two_bytes(values[2 * i], values[2 * i + 1]), list);
    }
    Passed {
        unfinished: held_at_end(seen.zeros, values),
        count: seen.count,
        out: seen.out,
    }
}

// What is unfinished after values, with so many zeros before the next: a byte without its second is held.
fn held_at_end(zeros: u32, values: &[u8]) -> Unfinished
    ensures { result ≡ unfinished_after (between zeros) (drop (2 * (length values.now / 2)) values.now) }
{
    Unfinished {
        held: values.as_chunks::<2>().1.first().copied(),
        zeros,
    }
}

// One value: a 0 is counted, and any other ends a timing.
fn pass_value(seen: Seen, value: u32, list: &mut [u32]) -> Seen
    requires { (value < 65536) × (seen.count < 18446744073709551615) }
    ensures { PassedValue seen.zeros seen.count seen.out value list.old result.zeros result.count result.out list.new }
{
    if value == 0 {
        return Seen {
            zeros: (seen.zeros + 1).min(MOST_ZEROS),
            count: seen.count,
            out: seen.out,
        };
    }
    let timing = UNIT * (ADDED_BY_ZERO * seen.zeros + value);
    store(list, seen.count, timing);
    Seen {
        zeros: 0,
        count: seen.count + 1,
        out: out_after(seen.out, seen.count, timing),
    }
}

// The index of the first timing out of range, after one more. The range is asked for first: in the other order it was measured twice as slow.
fn out_after(out: Option<usize>, count: usize, timing: u32) -> Option<usize>
    ensures { result ≡ first_out_after count out (timing ∷ []) }
{
    if flux_timings::timing_in_range(timing) {
        return out;
    }
    match out {
        Some(_) => out,
        None => Some(count),
    }
}

// Stores a timing at a place of the list, where it has the place.
fn store(list: &mut [u32], at: usize, timing: u32)
    ensures { list.new ≡ set list.old at timing }
{
    if at < list.len() {
        list[at] = timing;
    }
}

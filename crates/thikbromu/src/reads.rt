// Two reads of one sector. A read is the data bytes of a sector with the two check bytes behind them.
ghost use Rattle.std.specs.Prelude.{◌≡◌};
ghost use Rattle.telling.specs.Numbers.{number_in, value_in, part_length, which_read};
ghost use Rattle.thikbromu.specs.Lent.{finding_lent, low_byte};
ghost use Rattle.two_reads.specs.Comparison.{comparison};
ghost use Rattle.two_reads.specs.GoodRead.{part_answer};

use telling::{told, told_part};

// Compares two reads; `value` is how many findings they have, 0 or 1. The finding, FZD, is four numbers at the front of `numbers`: kind,
// level, the least index at which the reads differ, and how many bits differ; zeros where there is none and beside a refusal.
#[unsafe(no_mangle)]
pub extern "C" fn thikbromu_compare_reads(
    first: &[u8],
    second: &[u8],
    data_mark: u32,
    numbers: &mut [u32],
    value: &mut usize,
) -> u32
    ensures number { result ≡ number_in (comparison first.now second.now) }
    ensures value { value.new ≡ value_in (comparison first.now second.now) }
    ensures numbers { numbers.new ≡ finding_lent first.now second.now numbers.old }
{
    match two_reads::compare_reads(first, second, low_byte(data_mark)) {
        Ok(Some(finding)) => {
            basis::copy(&finding, numbers);
            told(Ok(1), value)
        }
        Ok(None) => {
            basis::copy(&[0; 4], numbers);
            told(Ok(0), value)
        }
        Err(refusal) => {
            basis::copy(&[0; 4], numbers);
            told(Err(refusal), value)
        }
    }
}

// Says which of two reads has a good check: `which` is 0 for the first and 1 for the second, and `value` is how many bytes its data has,
// which stand at the front of that read. Both are 0 where neither check is good, and beside a refusal.
#[unsafe(no_mangle)]
pub extern "C" fn thikbromu_good_read(
    first: &[u8],
    second: &[u8],
    data_mark: u32,
    which: &mut usize,
    value: &mut usize,
) -> u32
    ensures number { result ≡ number_in (part_answer first.now second.now (low_byte data_mark)) }
    ensures value { value.new ≡ part_length (part_answer first.now second.now (low_byte data_mark)) }
    ensures which { which.new ≡ which_read (part_answer first.now second.now (low_byte data_mark)) }
{
    told_part(
        two_reads::good_part(first, second, low_byte(data_mark)),
        which,
        value,
    )
}

// A data mark above 255 counts as its low byte.
fn low_byte(x: u32) -> u8
    ensures { result ≡ low_byte x }
{
    (x % 256) as u8
}

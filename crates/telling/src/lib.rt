// Answers, told to a caller in another language: a number, 0 where a call is accepted and else the refusal's, and what the call gives, or
// what is given beside the refusal, stored behind a reference.
#![tactic(auto)]

ghost use Rattle.std.specs.Prelude.{◌≡◌, cond};
ghost use Rattle.reader_as_number.specs.Numbers.{number_kept};
ghost use Rattle.refusals.specs.RefusedCalls.{answer_of};
ghost use Rattle.sectors.specs.Calls.{read_out_answer};
ghost use Rattle.separator.specs.Rule.{offset_given, taken_answer};
ghost use Rattle.track_file.specs.Portions.{read_answer};
ghost use Rattle.two_reads.specs.GoodRead.{good_part_answer};
ghost use Rattle.telling.specs.Numbers.{number_in, value_in, offset_stored, sector_numbers, value_read, check_read, value_given, place_given, part_length, which_read};

use refusals::Refusal;
use revolution_portions::RevolutionReader;
use sector_records::Sector;
use sectors::ReadOut;
use separator::Step;
use track_file::FileCells;
use two_reads::GoodPart;

// Tells a count: every routine that counts something does it by this function.
pub fn told(counted: Result<usize, Refusal>, value: &mut usize) -> u32
    ensures number { result ≡ number_in (answer_of counted) }
    ensures value { value.new ≡ value_in (answer_of counted) }
{
    match counted {
        Ok(count) => {
            *value = count;
            0
        }
        Err(refusal) => {
            *value = refusal.value();
            refusal.number()
        }
    }
}

// Tells the cells of a step, and stores its offset; beside a refusal that is kept.
pub fn told_step(step: Result<Step, Refusal>, offset: &mut i32, value: &mut usize) -> u32
    ensures number { result ≡ number_in (taken_answer step) }
    ensures value { value.new ≡ value_in (taken_answer step) }
    ensures offset { offset.new ≡ offset_stored (taken_answer step) (offset_given step) offset.old }
{
    match step {
        Ok(step) => {
            *offset = step.offset;
            told(Ok(step.cells as usize), value)
        }
        Err(refusal) => told(Err(refusal), value),
    }
}

// Tells the bytes of a sector that is read out, and stores whether their check is good; beside a refusal that is kept.
pub fn told_read(read: Result<ReadOut, Refusal>, good: &mut u32, value: &mut usize) -> u32
    ensures number { result ≡ number_in (read_out_answer read) }
    ensures value { value.new ≡ value_read (read_out_answer read) }
    ensures good { good.new ≡ check_read (read_out_answer read) good.old }
{
    match read {
        Ok(read) => {
            *good = u32::from(read.check_good);
            told(Ok(read.size), value)
        }
        Err(refusal) => told(Err(refusal), value),
    }
}

// Tells the cells of a track file, and stores its track and its side, as many of the two as there is room for; beside a refusal the place is
// kept.
pub fn told_file(read: Result<FileCells, Refusal>, place: &mut [u32], value: &mut usize) -> u32
    ensures number { result ≡ number_in (read_answer read) }
    ensures value { value.new ≡ value_given (read_answer read) }
    ensures place { place.new ≡ place_given (read_answer read) place.old }
{
    match read {
        Ok(file) => {
            basis::copy(&[u32::from(file.track), u32::from(file.side)], place);
            told(Ok(file.count), value)
        }
        Err(refusal) => told(Err(refusal), value),
    }
}

// Tells how long the part of a good read is, and stores which read it is of: 1 for the second, 0 for the first and beside a refusal.
pub fn told_part(part: Result<GoodPart, Refusal>, which: &mut usize, value: &mut usize) -> u32
    ensures number { result ≡ number_in (good_part_answer part) }
    ensures value { value.new ≡ part_length (good_part_answer part) }
    ensures which { which.new ≡ which_read (good_part_answer part) }
{
    match part {
        Ok(part) => {
            *which = usize::from(part.second);
            told(Ok(part.count), value)
        }
        Err(refusal) => {
            *which = 0;
            told(Err(refusal), value)
        }
    }
}

// Tells the timings of a portion, and keeps the number of the next reader, or, beside a refusal, the one that is there.
pub fn told_portion(
    answer: Result<usize, Refusal>,
    next: RevolutionReader,
    state: &mut u32,
    value: &mut usize,
) -> u32
    ensures number { result ≡ number_in (answer_of answer) }
    ensures value { value.new ≡ value_in (answer_of answer) }
    ensures state { state.new ≡ number_kept (answer_of answer) state.old next }
{
    if answer.is_ok() {
        *state = reader_as_number::number_of_reader(next);
    }
    told(answer, value)
}

// A sector's record as numbers.
#[tactic(auto, unfolding(crate::specs::Numbers::sector_numbers))]
pub fn sector_numbers(sector: Sector) -> [u32; 13]
    ensures { result ≡ sector_numbers sector }
{
    [
        sector.place,
        u32::from(sector.mark),
        u32::from(sector.track),
        u32::from(sector.side),
        u32::from(sector.number),
        u32::from(sector.size_code),
        u32::from(sector.id_check_good),
        sector.data_place,
        u32::from(sector.data_mark),
        sector.data_length,
        u32::from(sector.data_check_good),
        sector.data_end,
        u32::from(sector.density),
    ]
}

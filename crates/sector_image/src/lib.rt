// The plain image of a track: the data of its nine sectors, in the order of their numbers.
#![tactic(auto)]

ghost use Rattle.std.specs.Prelude.{◌≡◌, ℕ, ◌+◌, ◌-◌, ◌<◌, ◌≤◌, Some, length, unwrap_or};
ghost use Rattle.std.proofs.lemmas.List.Edits.{sets};
ghost use Rattle.basis.specs.Lists.{written_over};
ghost use Rattle.basis.specs.Search.{least};
ghost use Rattle.cells.specs.CellsAndBytes.{cell};
ghost use Rattle.refusals.specs.RefusedCalls.{answer_of, buffer_after};
ghost use Rattle.sector_records.specs.Sectors.{bytes_from};
ghost use Rattle.sector_image.specs.Image.{numbered, is_plain, fits, first_unfit, some_outside, image_judged, image_of, image_answer, image_after};
ghost use Rattle.sector_image.specs.PrivateContracts.{OfTrack, AllThere, unfit_or_ten};

use refusals::Refusal;
use sector_records::BYTE_LENGTH;
use sectors::{Cells, Density, Sector, Track};

// The bytes of an image: nine sectors of 512.
pub const IMAGE: usize = 4608;

const SECTOR: usize = 512;

const SECTORS: usize = 9;

// The cells of a data mark, after which the data bytes stand.
const MARK_LENGTH: usize = 64;

// The size code of 512 bytes, as the whole byte of the ID.
const SIZE_CODE: u8 = 2;

// Puts the plain image of a track at the front of `image` (rule 9.61).
#[tactic(auto, using(crate::proofs::Calls::few_listed))]
pub fn sector_image(track: Track, image: &mut [u8]) -> Result<usize, Refusal>
    ensures answer { answer_of result ≡ image_answer track.entry.cells.bytes.now track.entry.cells.count track.entry.track track.entry.side (length image.old) }
    ensures image { image.new ≡ image_after track.entry.cells.bytes.now track.entry.cells.count track.entry.track track.entry.side image.old }
{
    let found = track.sectors(Density::Double)?;
    let listed = &found.all[..found.count];
    put_image(track.cells, listed, image)
}

// The image of a track with these sectors.
#[tactic(auto, unfolding(crate::specs::Image::image_judged, refusals::specs::RefusedCalls::buffer_after))]
fn put_image(cells: Cells, sectors: &[Sector], image: &mut [u8]) -> Result<usize, Refusal>
    requires { OfTrack sectors.now }
    ensures answer { answer_of result ≡ image_judged sectors.now (length image.old) }
    ensures image { image.new ≡ buffer_after (image_judged sectors.now (length image.old)) (image_of (cell cells.entry.bytes.now cells.entry.count) sectors.now) image.old }
{
    if let Some(number) = first_unfit(sectors) {
        return Err(Refusal::NoPlainImage(number));
    }
    if some_outside(sectors) {
        return Err(Refusal::NoPlainImage(0));
    }
    if image.len() < IMAGE {
        return Err(Refusal::NoRoomForBytes(IMAGE));
    }
    write_image(cells, sectors, image);
    Ok(IMAGE)
}

// The first number from 1 to 9 that stands in the way.
fn first_unfit(sectors: &[Sector]) -> Option<usize>
    ensures first { unfit_or_ten result ≡ first_unfit sectors.now }
    ensures inside { (number : ℕ) → result ≡ Some number → number ≤ 9 }
{
    for number in 1..SECTORS + 1 {
        if !fits(sectors, number as u8) {
            return Some(number);
        }
    }
    None
}

// Whether one sector has this number, and that one is plain.
fn fits(sectors: &[Sector], number: u8) -> bool
    ensures { result ≡ fits sectors.now number }
{
    match find(sectors, number, 0) {
        None => false,
        Some(first) => match find(sectors, number, first + 1) {
            Some(_) => false,
            None => is_plain(&sectors[first]),
        },
    }
}

// The first sector from index `from` on with this number.
fn find(sectors: &[Sector], number: u8, from: usize) -> Option<usize>
    requires { from ≤ length sectors.now }
    ensures least { unwrap_or result (length sectors.now) ≡ least (numbered sectors.now number) (length sectors.now - from) from }
    ensures inside { (i : ℕ) → result ≡ Some i → i < length sectors.now }
{
    for i in from..sectors.len() {
        if sectors[i].number == number {
            return Some(i);
        }
    }
    None
}

// Whether a sector has 512 bytes with good checks.
#[tactic(auto, unfolding(crate::specs::Image::is_plain))]
fn is_plain(sector: &Sector) -> bool
    ensures { result ≡ is_plain sector.now }
{
    (sector.size_code == SIZE_CODE) & sector.id_check_good & sector.data_check_good
}

// Whether some sector has a number that is none of 1 to 9.
fn some_outside(sectors: &[Sector]) -> bool
    ensures { result ≡ some_outside sectors.now }
{
    for sector in sectors {
        if (sector.number < 1) | (9 < sector.number) {
            return true;
        }
    }
    false
}

// The nine sectors, each after the one with the number before it.
fn write_image(cells: Cells, sectors: &[Sector], image: &mut [u8])
    requires { AllThere sectors.now × (4608 ≤ length image.old) }
    ensures { image.new ≡ written_over (image_of (cell cells.entry.bytes.now cells.entry.count) sectors.now) image.old }
{
    for i in 0..SECTORS {
        if let Some(index) = find(sectors, i as u8 + 1, 0) {
            write_sector(cells, data_at(&sectors[index]), SECTOR * i, image);
        }
    }
}

// The cell after a sector's data mark.
fn data_at(sector: &Sector) -> usize
    ensures { (result ≡ sector.now.data_place + 64) × (result ≤ 0x1_0000_0040) }
{
    sector.data_place as usize + MARK_LENGTH
}

// Decodes the 512 bytes from cell p on into the image from byte `at` on.
fn write_sector(cells: Cells, p: usize, at: usize, image: &mut [u8])
    requires { (p ≤ 0x1_0000_0040) × (at ≤ 4096) × (at + 512 ≤ length image.old) }
    ensures { image.new ≡ sets image.old at (bytes_from (cell cells.entry.bytes.now cells.entry.count) p 512) }
{
    for i in 0..SECTOR {
        image[at + i] = mfm::byte_on(cells, p + BYTE_LENGTH * i);
    }
}

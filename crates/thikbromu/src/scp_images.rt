// Whole SuperCard Pro images: the header, where the track blocks are, and the check sum.
ghost use Rattle.std.specs.Prelude.{◌≡◌};
ghost use Rattle.scp_image.specs.Header.{header_answer, header_after};
ghost use Rattle.scp_image.specs.Entries.{entries_answer, entries_after};
ghost use Rattle.scp_image.specs.CheckSum.{sum_after, check_answer};
ghost use Rattle.scp_image.specs.Laws.{WellPlaced, AllSummed};
ghost use Rattle.telling.specs.Numbers.{number_in, value_in};

use telling::told;

// The ten numbers of an image's header, to the front of `numbers`; `value` is 10. `first` has the first 688 bytes of the image or more, and the
// whole has `image_length`.
#[unsafe(no_mangle)]
pub extern "C" fn thikbromu_image_header(
    first: &[u8],
    image_length: usize,
    numbers: &mut [u32],
    value: &mut usize,
) -> u32
    ensures number { result ≡ number_in (header_answer first.now image_length) }
    ensures value { value.new ≡ value_in (header_answer first.now image_length) }
    ensures list { numbers.new ≡ header_after first.now image_length numbers.old }
{
    told(scp_image::image_header(first, image_length, numbers), value)
}

// Where the block of each of the 168 entries begins and before what it has to end, to the front of `places`, both 0 where the track is not there;
// `value` is how many tracks are there.
#[unsafe(no_mangle)]
pub extern "C" fn thikbromu_image_entries(
    first: &[u8],
    image_length: usize,
    places: &mut [u32],
    value: &mut usize,
) -> u32
    ensures number { result ≡ number_in (entries_answer first.now image_length) }
    ensures value { value.new ≡ value_in (entries_answer first.now image_length) }
    ensures list { places.new ≡ entries_after first.now image_length places.old }
    ensures placed { WellPlaced first.now image_length (entries_answer first.now image_length) }
{
    told(scp_image::image_entries(first, image_length, places), value)
}

// The sum of an image's bytes after a portion more, from the sum that those before it left; it begins with 0, at byte 16.
#[unsafe(no_mangle)]
pub extern "C" fn thikbromu_image_sum(sum: u32, portion: &[u8]) -> u32
    ensures sum { result ≡ sum_after sum portion.now }
    ensures all { AllSummed sum portion.now result }
{
    scp_image::image_sum(sum, portion)
}

// Whether the sum of the bytes is the one that the header says; `value` is that sum.
#[unsafe(no_mangle)]
pub extern "C" fn thikbromu_image_check(
    first: &[u8],
    image_length: usize,
    sum: u32,
    value: &mut usize,
) -> u32
    ensures number { result ≡ number_in (check_answer first.now image_length sum) }
    ensures value { value.new ≡ value_in (check_answer first.now image_length sum) }
{
    told(scp_image::image_check(first, image_length, sum), value)
}

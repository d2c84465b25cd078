// The plain image of a track.
ghost use Rattle.std.specs.Prelude.{◌≡◌, length};
ghost use Rattle.sector_image.specs.Image.{image_answer, image_after};
ghost use Rattle.telling.specs.Numbers.{number_in, value_in};

use crate::track_of;
use telling::told;

// The data of sectors 1 to 9 of a track, 512 bytes each, in the order of their numbers at the front of `image`; `value` is how many bytes that
// is, 4,608. Beside refusal 24 it is the least number that stands in the way, or 0 where that is only one outside 1 to 9.
#[unsafe(no_mangle)]
pub extern "C" fn thikbromu_sector_image(
    bytes: &[u8],
    n: usize,
    track: u32,
    side: u32,
    image: &mut [u8],
    value: &mut usize,
) -> u32
    ensures number { result ≡ number_in (image_answer bytes.now n track side (length image.old)) }
    ensures value { value.new ≡ value_in (image_answer bytes.now n track side (length image.old)) }
    ensures image { image.new ≡ image_after bytes.now n track side image.old }
{
    let track = track_of(bytes, n, track, side);
    told(sector_image::sector_image(track, image), value)
}

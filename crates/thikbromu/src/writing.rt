// Write Track: a track that is made of a list of bytes.
ghost use Rattle.std.specs.Prelude.{◌≡◌};
ghost use Rattle.telling.specs.Numbers.{number_in, value_in};
ghost use Rattle.track_writer.specs.Calls.{write_answer, written_after};

use telling::told;

// The cells that Write Track makes of a list, at the front of `cells`; `value` is their number.
#[unsafe(no_mangle)]
pub extern "C" fn thikbromu_write_track(list: &[u8], cells: &mut [u8], value: &mut usize) -> u32
    ensures number { result ≡ number_in (write_answer list.now cells.old) }
    ensures value { value.new ≡ value_in (write_answer list.now cells.old) }
    ensures cells { cells.new ≡ written_after list.now cells.old }
{
    told(track_writer::write_track(list, cells), value)
}

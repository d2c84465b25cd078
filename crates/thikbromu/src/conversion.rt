// Old flux files, written anew.
ghost use Rattle.std.specs.Prelude.{◌≡◌, length};
ghost use Rattle.flux_conversion.specs.Conversion.{conversion, converted};
ghost use Rattle.flux_conversion.specs.Demand3.{ConversionDemand3};
ghost use Rattle.telling.specs.Numbers.{number_in, value_in};

use telling::told;

// The new track file of an old flux file, at the front of `out`; `value` is its length. The file is judged first, and then the room.
#[unsafe(no_mangle)]
pub extern "C" fn thikbromu_convert_file(file: &[u8], out: &mut [u8], value: &mut usize) -> u32
    ensures number { result ≡ number_in (conversion (length out.old) file.now) }
    ensures value { value.new ≡ value_in (conversion (length out.old) file.now) }
    ensures out { out.new ≡ converted file.now out.old }
    ensures demand3 { ConversionDemand3 file.now (conversion (length out.old) file.now) out.old out.new }
{
    told(flux_conversion::convert_file(file, out), value)
}

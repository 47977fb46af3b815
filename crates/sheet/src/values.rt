// The entries' bits as values of the table: the width's leading bits, all bits after them 0.
ghost use Rattle.std.specs.Prelude.{◌≡◌, ◌^◌, ◌<◌, length, take};
ghost use Rattle.reading.specs.Limits.{COUNT};
ghost use Rattle.reading.specs.Contents.{sheet_in, GoodContents};
ghost use Rattle.sheet.specs.Values.{value_of, values_of};

use reading::{COUNT, Contents};

// The value of `len` leading bits at a width; 0 and no Option where it has none: `value_of` says so.
fn placed(width: u32, bits: u32, len: u8) -> u32
    requires { bits < 2 ^ len }
    ensures { result ≡ value_of width bits len }
{
    let l = u32::from(len);
    if table::WIDTH < width || width < l {
        return 0;
    }
    (u64::from(bits) << (width - l)) as u32
}

// The values of a good text's entries, in the places of their bits.
pub(crate) fn sheet_values(sheet: &Contents) -> [u32; COUNT as usize]
    requires { GoodContents sheet.now }
    ensures { (COUNT ≡ length result) × (take sheet.now.entries result ≡ values_of sheet.now.width (sheet_in sheet.now).bits (sheet_in sheet.now).lengths) }
{
    let mut values = sheet.bits;
    for i in 0..sheet.entries {
        values[i] = placed(sheet.width, values[i], sheet.lengths[i]);
    }
    values
}

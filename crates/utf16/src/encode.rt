// Encoding: how many units a code point takes, and these units in a buffer (table 3-5).
ghost use Rattle.std.specs.Prelude.{◌≡◌, ◌≤◌, length};
ghost use Rattle.laws.specs.Writing.{Room, fitted, Wrote};
ghost use Rattle.encodings.specs.Forms.{code_units};
ghost use Rattle.utf16.specs.Utf16.{units16, form16};

// How many units a code point takes.
pub fn size_of(code: u32) -> usize
    ensures { result ≡ length (units16 code) }
{
    match code {
        0..=0xFFFF => 1,
        _ => 2,
    }
}

// Writes a code point's units from `at` on, and answers the index after them.
fn put(code: u32, out: &mut [u16], at: usize) -> usize
    requires code_bound { code ≤ 0x10FFFF }
    requires room { Room out.old at (units16 code) }
    ensures { Wrote out.old at (units16 code) result out.new }
{
    if code < 0x10000 {
        out[at] = code as u16;
        return at + 1;
    }
    out[at] = (0xD800 + (code - 0x10000) / 0x400) as u16;
    out[at + 1] = (0xDC00 + (code - 0x10000) % 0x400) as u16;
    at + 2
}

// The same for every number and every index: writes nothing if there is no room for all the units,
// or if the number is over 10FFFF.
pub fn put_at(code: u32, out: &mut [u16], at: usize) -> usize
    ensures { Wrote out.old at (fitted (code_units form16 code) out.old at) result out.new }
{
    if out.len() <= at {
        return at;
    }
    if out.len() - at < size_of(code) {
        return at;
    }
    if 0x10FFFF < code {
        return at;
    }
    put(code, out, at)
}

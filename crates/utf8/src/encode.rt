// Encoding: how many bytes a code point takes, and these bytes in a buffer (table 3-6).
ghost use Rattle.std.specs.Prelude.{◌≡◌, length, ◌≤◌, ◌<◌};
ghost use Rattle.utf8.specs.Utf8.{bytes_of, code_bytes};
ghost use Rattle.laws.specs.Writing.{Room, fitted, Wrote};

// How many bytes a code point takes.
pub fn size_of(code: u32) -> usize
    ensures { result ≡ length (bytes_of code) }
{
    match code {
        0..=0x7F => 1,
        0x80..=0x7FF => 2,
        0x800..=0xFFFF => 3,
        _ => 4,
    }
}

fn put_one(code: u32, out: &mut [u8], at: usize) -> usize
    requires code_bound { code < 0x80 }
    requires room { Room out.old at (bytes_of code) }
    ensures { Wrote out.old at (bytes_of code) result out.new }
{
    out[at] = code as u8;
    at + 1
}

fn put_two(code: u32, out: &mut [u8], at: usize) -> usize
    requires le_code { 0x80 ≤ code }
    requires code_bound { code < 0x800 }
    requires room { Room out.old at (bytes_of code) }
    ensures { Wrote out.old at (bytes_of code) result out.new }
{
    out[at] = (0xC0 + code / 64) as u8;
    out[at + 1] = (0x80 + code % 64) as u8;
    at + 2
}

fn put_three(code: u32, out: &mut [u8], at: usize) -> usize
    requires le_code { 0x800 ≤ code }
    requires code_bound { code < 0x10000 }
    requires room { Room out.old at (bytes_of code) }
    ensures { Wrote out.old at (bytes_of code) result out.new }
{
    out[at] = (0xE0 + code / 4096) as u8;
    out[at + 1] = (0x80 + code / 64 % 64) as u8;
    out[at + 2] = (0x80 + code % 64) as u8;
    at + 3
}

fn put_four(code: u32, out: &mut [u8], at: usize) -> usize
    requires le_code { 0x10000 ≤ code }
    requires code_bound { code ≤ 0x10FFFF }
    requires room { Room out.old at (bytes_of code) }
    ensures { Wrote out.old at (bytes_of code) result out.new }
{
    out[at] = (0xF0 + code / 262144) as u8;
    out[at + 1] = (0x80 + code / 4096 % 64) as u8;
    out[at + 2] = (0x80 + code / 64 % 64) as u8;
    out[at + 3] = (0x80 + code % 64) as u8;
    at + 4
}

// Writes a code point's bytes from `at` on, and answers the index after them.
fn put(code: u32, out: &mut [u8], at: usize) -> usize
    requires code_bound { code ≤ 0x10FFFF }
    requires room { Room out.old at (bytes_of code) }
    ensures { Wrote out.old at (bytes_of code) result out.new }
{
    if code < 0x80 {
        return put_one(code, out, at);
    }
    if code < 0x800 {
        return put_two(code, out, at);
    }
    if code < 0x10000 {
        return put_three(code, out, at);
    }
    put_four(code, out, at)
}

// The same for every number and every index: writes nothing if there is no room for all the bytes,
// or if the number is over 10FFFF.
pub fn put_at(code: u32, out: &mut [u8], at: usize) -> usize
    ensures { Wrote out.old at (fitted (code_bytes code) out.old at) result out.new }
{
    if out.len() <= at {
        return at;
    }
    if out.len() - at < size_of(code) {
        return at;
    }
    if 0x10FFFF < code {
        return at;
    }
    put(code, out, at)
}

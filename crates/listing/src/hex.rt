// A code in capital hex of four to six digits.
ghost use Rattle.std.specs.Prelude.{◌≡◌, ◌<◌};
ghost use Rattle.laws.specs.Writing.{Room, Wrote};
ghost use Rattle.listing.specs.Hex.{hex_digit, last_four, hex_of};

// A digit of hex as its character.
fn digit(value: u32) -> u8
    requires { value < 16 }
    ensures { result ≡ hex_digit value }
{
    if value < 10 {
        return b'0' + value as u8;
    }
    b'A' + (value - 10) as u8
}

// Writes the last four digits of a code from `at` on, and answers the index after them.
fn put_four(code: u32, out: &mut [u8], at: usize) -> usize
    requires { Room out.old at (last_four code) }
    ensures { Wrote out.old at (last_four code) result out.new }
{
    out[at] = digit(code / 0x1000 % 16);
    out[at + 1] = digit(code / 0x100 % 16);
    out[at + 2] = digit(code / 0x10 % 16);
    out[at + 3] = digit(code % 16);
    at + 4
}

// Writes a code in hex from `at` on, and answers the index after it.
pub(crate) fn put_hex(code: u32, out: &mut [u8], at: usize) -> usize
    requires { Room out.old at (hex_of code) }
    ensures { Wrote out.old at (hex_of code) result out.new }
{
    if code < 0x10000 {
        return put_four(code, out, at);
    }
    if code < 0x100000 {
        out[at] = digit(code / 0x10000 % 16);
        return put_four(code, out, at + 1);
    }
    out[at] = digit(code / 0x100000 % 16);
    out[at + 1] = digit(code / 0x10000 % 16);
    put_four(code, out, at + 2)
}

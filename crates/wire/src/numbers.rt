// Numbers of 32 bits, low byte first.
ghost use Rattle.std.specs.Prelude.{◌≡◌, ◌*◌};
ghost use Rattle.std.proofs.Common.{lit<};
ghost use Rattle.std.proofs.lemmas.List.Edits.{sets};
ghost use Rattle.laws.specs.Writing.{fitted};
ghost use Rattle.wire.specs.Numbers.{low_first, first_number, number_at, length-number};

use crate::element::Element;

impl Element for u32 {
    ghost SIZE = { 4 };

    const SIZE: usize = 4;

    ghost first = { first_number };

    ghost bytes_of = { low_first };

    ghost has_bytes = { lit< tt };

    ghost sized = { length-number };

    fn at(bytes: &[u8], index: usize) -> u32 {
        number_at(bytes, index)
    }

    fn put(self, index: usize, bytes: &mut [u8]) {
        put_number(self, index, bytes);
    }
}

// The number at an index, counted in numbers: 0 if the bytes end before it does.
pub(crate) fn number_at(bytes: &[u8], index: usize) -> u32
    ensures { result ≡ number_at bytes.now index }
{
    if bytes.len() / 4 <= index {
        return 0;
    }
    let at = 4 * index;
    u32::from_le_bytes([bytes[at], bytes[at + 1], bytes[at + 2], bytes[at + 3]])
}

// Writes a number at an index, counted in numbers: nothing if the bytes end before it does.
pub(crate) fn put_number(value: u32, index: usize, bytes: &mut [u8])
    ensures { bytes.new ≡ sets bytes.old (4 * index) (fitted (low_first value) bytes.old (4 * index)) }
{
    if bytes.len() / 4 <= index {
        return;
    }
    let at = 4 * index;
    let four = value.to_le_bytes();
    bytes[at..at + 4].copy_from_slice(&four);
}

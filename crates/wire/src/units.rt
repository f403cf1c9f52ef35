// Units of 16 bits, low byte first.
ghost use Rattle.std.specs.Prelude.{◌≡◌, ◌*◌};
ghost use Rattle.std.proofs.Common.{lit<};
ghost use Rattle.std.proofs.lemmas.List.Edits.{sets};
ghost use Rattle.laws.specs.Writing.{fitted};
ghost use Rattle.wire.specs.Numbers.{unit_bytes, first_unit, unit_at, length-unit};

use crate::element::Element;

impl Element for u16 {
    ghost SIZE = { 2 };

    const SIZE: usize = 2;

    ghost first = { first_unit };

    ghost bytes_of = { unit_bytes };

    ghost has_bytes = { lit< tt };

    ghost sized = { length-unit };

    fn at(bytes: &[u8], index: usize) -> u16 {
        unit_at(bytes, index)
    }

    fn put(self, index: usize, bytes: &mut [u8]) {
        put_unit(self, index, bytes);
    }
}

// The unit at an index, counted in units: 0 if the bytes end before it does.
fn unit_at(bytes: &[u8], index: usize) -> u16
    ensures { result ≡ unit_at bytes.now index }
{
    if bytes.len() / 2 <= index {
        return 0;
    }
    let at = 2 * index;
    u16::from_le_bytes([bytes[at], bytes[at + 1]])
}

// Writes a unit at an index, counted in units: nothing if the bytes end before it does.
fn put_unit(value: u16, index: usize, bytes: &mut [u8])
    ensures { bytes.new ≡ sets bytes.old (2 * index) (fitted (unit_bytes value) bytes.old (2 * index)) }
{
    if bytes.len() / 2 <= index {
        return;
    }
    let at = 2 * index;
    let two = value.to_le_bytes();
    bytes[at..at + 2].copy_from_slice(&two);
}

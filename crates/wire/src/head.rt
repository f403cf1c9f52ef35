// The head of a call: its eight numbers.
ghost use Rattle.std.specs.Prelude.{◌≡◌};
ghost use Rattle.wire.specs.Messages.{head_of};

use crate::numbers::number_at;

#[derive(Clone, Copy)]
pub struct Head {
    pub kind: u32,
    pub x: u32,
    pub y: u32,
    pub z: u32,
    pub w: u32,
    pub room: usize,
    pub first: usize,
    pub second: usize,
}

// The head of these bytes: a number that is not there is 0.
pub fn head_of(bytes: &[u8]) -> Head
    ensures { result ≡ head_of bytes.now }
{
    Head {
        kind: number_at(bytes, 0),
        x: number_at(bytes, 1),
        y: number_at(bytes, 2),
        z: number_at(bytes, 3),
        w: number_at(bytes, 4),
        room: number_at(bytes, 5) as usize,
        first: number_at(bytes, 6) as usize,
        second: number_at(bytes, 7) as usize,
    }
}

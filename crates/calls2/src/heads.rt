// The head of a call: the bounds of each kind, and the sizes of what comes in and of what is lent.
use std::io;
use std::io::Stdin;
use wire::Head;

// The kinds of call (docs/CALLS.md), in the order of their numbers from 20 on.
#[derive(Clone, Copy)]
pub(crate) enum Kind {
    ReadUnits,
    WriteUnits,
    Mend,
}

// What a kind takes and lends: whether the elements of a, and whether what is lent, are code points
// or units.
#[derive(Clone, Copy)]
struct Shape {
    of_text: bool,
    lends_codes: bool,
}

impl Kind {
    // The kind with this number, if there is one.
    fn of(number: u32) -> Option<Kind> {
        match number {
            20 => Some(Kind::ReadUnits),
            21 => Some(Kind::WriteUnits),
            22 => Some(Kind::Mend),
            _ => None,
        }
    }

    fn shape(self) -> Shape {
        Shape {
            of_text: matches!(self, Kind::WriteUnits),
            lends_codes: matches!(self, Kind::ReadUnits),
        }
    }
}

// A call whose head keeps the bounds of its kind.
#[derive(Clone, Copy)]
pub(crate) struct Call {
    pub kind: Kind,
    pub head: Head,
}

// The sizes of a call: the bytes that come in, and the code points or the units that these are; the
// code points or the units that are lent; and where all that is written ends, the answer's numbers
// first.
#[derive(Clone, Copy)]
pub(crate) struct Sizes {
    pub bytes: usize,
    pub codes: usize,
    pub units: usize,
    pub lent_codes: usize,
    pub lent_units: usize,
    pub end: usize,
}

impl Call {
    // The call with this head: none if it is of no kind, or does not keep the bounds, which all
    // kinds share. No kind takes elements of b.
    fn of(head: Head) -> Option<Call> {
        let kind = Kind::of(head.kind)?;
        if 120000 < head.room || 20000 < head.first || 0 < head.second {
            return None;
        }
        Some(Call { kind, head })
    }

    // Reads the next call's head: none too if the input ends before it.
    pub(crate) fn next(stdin: &mut Stdin) -> io::Result<Option<Call>> {
        let mut bytes = [0u8; 32];
        if !wire::read_full(stdin, &mut bytes)? {
            return Ok(None);
        }
        Ok(Call::of(wire::head_of(&bytes)))
    }

    // In a good head nothing is over the bounds here.
    pub(crate) fn sizes(self) -> Sizes {
        let shape = self.kind.shape();
        let elements = wire::at_most(20000, self.head.first);
        let codes = wire::if_so(shape.of_text, elements);
        let units = wire::if_so(!shape.of_text, elements);
        let room = wire::at_most(120000, self.head.room);
        let lent_codes = wire::if_so(shape.lends_codes, room);
        let lent_units = wire::if_so(!shape.lends_codes, room);
        Sizes {
            bytes: 4 * codes + 2 * units,
            codes,
            units,
            lent_codes,
            lent_units,
            end: 16 + 4 * lent_codes + 2 * lent_units,
        }
    }
}

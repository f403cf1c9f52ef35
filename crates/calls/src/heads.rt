// The head of a call: the bounds of each kind, and the sizes of what comes in and of what is lent.
use std::io;
use std::io::Stdin;
use wire::Head;

// The kinds of call (docs/CALLS.md), in the order of their numbers from 1 on.
#[derive(Clone, Copy)]
pub(crate) enum Kind {
    Sorter,
    OneStep,
    FullParts,
    Join,
    SimpleForm,
    GatheredForm,
    Turn,
    Name,
    ReadName,
    ReadText,
    WriteText,
    Mend,
    Rank,
    RankBytes,
    Fresh,
    ReadRecord,
    ReadImage,
    Order,
    WriteRecord,
}

// What a kind takes and lends: the most elements of a and of b, whether these are code points, and
// whether what is lent is.
#[derive(Clone, Copy)]
struct Shape {
    first: usize,
    second: usize,
    of_text: bool,
    lends_codes: bool,
}

fn shaped(first: usize, second: usize, of_text: bool, lends_codes: bool) -> Shape {
    Shape {
        first,
        second,
        of_text,
        lends_codes,
    }
}

impl Kind {
    // The kind with this number, if there is one.
    fn of(number: u32) -> Option<Kind> {
        match number {
            1 => Some(Kind::Sorter),
            2 => Some(Kind::OneStep),
            3 => Some(Kind::FullParts),
            4 => Some(Kind::Join),
            5 => Some(Kind::SimpleForm),
            6 => Some(Kind::GatheredForm),
            7 => Some(Kind::Turn),
            8 => Some(Kind::Name),
            9 => Some(Kind::ReadName),
            10 => Some(Kind::ReadText),
            11 => Some(Kind::WriteText),
            12 => Some(Kind::Mend),
            13 => Some(Kind::Rank),
            14 => Some(Kind::RankBytes),
            15 => Some(Kind::Fresh),
            16 => Some(Kind::ReadRecord),
            17 => Some(Kind::ReadImage),
            18 => Some(Kind::Order),
            19 => Some(Kind::WriteRecord),
            _ => None,
        }
    }

    // An image may be one that is over the limit.
    fn shape(self) -> Shape {
        match self {
            Kind::Sorter | Kind::OneStep => shaped(20000, 0, true, true),
            Kind::FullParts | Kind::Join | Kind::Turn => shaped(20000, 0, true, true),
            Kind::SimpleForm | Kind::GatheredForm => shaped(20000, 0, true, true),
            Kind::Name | Kind::WriteText => shaped(20000, 0, true, false),
            Kind::ReadName | Kind::Mend | Kind::Fresh => shaped(20000, 0, false, false),
            Kind::ReadText => shaped(20000, 0, false, true),
            Kind::Rank => shaped(20000, 20000, true, true),
            Kind::RankBytes => shaped(20000, 20000, false, false),
            Kind::ReadRecord | Kind::ReadImage => shaped(66000, 0, false, false),
            Kind::Order => shaped(66000, 0, false, true),
            Kind::WriteRecord => shaped(66000, 20000, false, false),
        }
    }
}

// A call whose head keeps the bounds of its kind.
#[derive(Clone, Copy)]
pub(crate) struct Call {
    pub kind: Kind,
    pub head: Head,
}

// The sizes of a call: the bytes that come in, and the code points that these are; the code points
// that are lent; and, of what is written, where the lent bytes end and where all of it does. The
// answer's numbers come first, and are not lent.
#[derive(Clone, Copy)]
pub(crate) struct Sizes {
    pub bytes: usize,
    pub codes: usize,
    pub lent: usize,
    pub lent_end: usize,
    pub end: usize,
}

impl Call {
    // Does the call keep the bounds of its kind?
    fn is_good(self) -> bool {
        let head = self.head;
        let shape = self.kind.shape();
        if 120000 < head.room || shape.first < head.first || shape.second < head.second {
            return false;
        }
        match self.kind {
            Kind::Fresh => 96 <= head.room,
            Kind::WriteRecord => head.z < 0x1_0000 && head.w <= 1,
            _ => true,
        }
    }

    // The call with this head: none if it is of no kind, or does not keep the bounds of its kind.
    fn of(head: Head) -> Option<Call> {
        let kind = Kind::of(head.kind)?;
        let call = Call { kind, head };
        if call.is_good() { Some(call) } else { None }
    }

    // Reads the next call's head: none too if the input ends before it.
    pub(crate) fn next(stdin: &mut Stdin) -> io::Result<Option<Call>> {
        let mut bytes = [0u8; 32];
        if !wire::read_full(stdin, &mut bytes)? {
            return Ok(None);
        }
        Ok(Call::of(wire::head_of(&bytes)))
    }

    // How many elements are lent: the image if a record is to be written, else what is asked for.
    fn room(self) -> usize {
        match self.kind {
            Kind::WriteRecord => self.head.first,
            _ => self.head.room,
        }
    }

    // In a good head nothing is over the bounds here.
    pub(crate) fn sizes(self) -> Sizes {
        let shape = self.kind.shape();
        let head = self.head;
        let elements = wire::at_most(66000, head.first) + wire::at_most(20000, head.second);
        let codes = wire::if_so(shape.of_text, elements);
        let room = wire::at_most(120000, self.room());
        let lent = wire::if_so(shape.lends_codes, room);
        let lent_end = 16 + wire::if_so(!shape.lends_codes, room);
        Sizes {
            bytes: elements + 3 * codes,
            codes,
            lent,
            lent_end,
            end: lent_end + 4 * lent,
        }
    }
}

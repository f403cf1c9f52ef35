// Which call each kind is (docs/CALLS.md).
use crate::heads::Kind;
use answers::Refusal;
use encodings::Counted;
use wire::Reply;

fn read(answer: Result<Counted, Refusal>) -> Reply {
    match answer {
        Ok(found) => wire::counted(found.length, found.ills),
        Err(refusal) => wire::refused(refusal),
    }
}

// Makes the call with what came in, its code points or its units, and with what is lent: code points
// or units, of which the others are none.
pub(crate) fn answer(
    kind: Kind,
    text: &[u32],
    units: &[u16],
    lent_codes: &mut [u32],
    lent_units: &mut [u16],
) -> Reply {
    wire::fill(lent_codes);
    wire::fill(lent_units);
    match kind {
        Kind::ReadUnits => read(utf16::read_units(units, lent_codes)),
        Kind::WriteUnits => wire::filled(utf16::write_units(text, lent_units)),
        Kind::Mend => read(mending_units::mend(units, lent_units)),
    }
}

// Which call each kind is (docs/CALLS.md).
use crate::heads::{Call, Kind};
use crate::{labelled, replies};
use wire::{Head, Reply};

// The elements of a and of b, which come in as one list.
fn rank(head: Head, both: &[u32]) -> Reply {
    let end = wire::at_most(both.len(), head.first);
    replies::ranked(ranking::rank(&both[..end], &both[end..]))
}

fn rank_bytes(head: Head, both: &[u8]) -> Reply {
    let end = wire::at_most(both.len(), head.first);
    replies::ranked(ranking::rank_bytes(&both[..end], &both[end..]))
}

// Makes the call with what came in, its code points and its bytes, and with what is lent: code
// points or bytes, of which the others are none.
pub(crate) fn answer(
    call: Call,
    text: &[u32],
    bytes: &[u8],
    codes: &mut [u32],
    lent: &mut [u8],
) -> Reply {
    wire::fill(codes);
    wire::fill(lent);
    let head = call.head;
    match call.kind {
        Kind::Sorter => replies::sorted(letters::sorter(head.x)),
        Kind::OneStep => replies::stepped(letters::one_step(head.x)),
        Kind::FullParts => wire::filled(letters::full_parts(text, codes)),
        Kind::Join => wire::filled(joining::join(text, codes)),
        Kind::SimpleForm => wire::filled(clusters::simple_form(text, codes)),
        Kind::GatheredForm => wire::filled(clusters::gathered_form(text, codes)),
        Kind::Turn => wire::filled(fillers::turn(text, codes)),
        Kind::Name => wire::filled(names::name(head.x, lent)),
        Kind::ReadName => replies::named(names::read_name(bytes)),
        Kind::ReadText => replies::read(utf8::read_text(bytes, codes)),
        Kind::WriteText => wire::filled(utf8::write_text(text, lent)),
        Kind::Mend => replies::read(mending::mend(bytes, lent)),
        Kind::Rank => rank(head, text),
        Kind::RankBytes => rank_bytes(head, bytes),
        Kind::Fresh => labelled::fresh(lent),
        Kind::ReadRecord => labelled::record(bytes, head.x as usize, lent),
        Kind::ReadImage => labelled::judged(labels::read_image(bytes)),
        Kind::Order => labelled::judged(sorting::order(bytes, codes)),
        Kind::WriteRecord => labelled::write(head, bytes, lent),
    }
}

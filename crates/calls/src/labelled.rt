// The kinds of call on the label file: 15 a fresh record, 16 reading one record, 19 writing a
// record, and the answers of 17 reading a whole image and 18 the order of its records.
use labels::{Form, ImageRefusal};
use wire::{Head, Reply};

// Copies bytes to the front of what is lent: as many as there are, or as it has room for.
fn copy(given: &[u8], lent: &mut [u8]) {
    let size = wire::at_most(lent.len(), given.len());
    lent[..size].copy_from_slice(&given[..size]);
}

// Copies a fresh record to the front of what is lent, which has room for it.
pub(crate) fn fresh(lent: &mut [u8]) -> Reply {
    copy(&labels::fresh(), lent);
    wire::done(96, 0, 0)
}

pub(crate) fn record(image: &[u8], number: usize, lent: &mut [u8]) -> Reply {
    match labels::read_record(image, number, lent) {
        Ok(entry) => {
            let length = wire::counted(entry.length, 0);
            wire::done(length.value, entry.object, entry.berth as u32)
        }
        Err(refusal) => wire::refused(refusal),
    }
}

// Refusal 7 of a whole image has the record too, which `counted` makes a number of 32 bits.
pub(crate) fn judged(answer: Result<usize, ImageRefusal>) -> Reply {
    match answer {
        Ok(count) => wire::counted(count, 0),
        Err(ImageRefusal::Refused(refusal)) => wire::refused(refusal),
        Err(ImageRefusal::BadRecord(number, byte)) => {
            let places = wire::counted(byte, number);
            Reply {
                refusal: 7,
                value: places.value,
                second: places.second,
                third: 0,
            }
        }
    }
}

fn form_of(number: u32) -> Form {
    if number == 0 {
        return Form::AsGiven;
    }
    Form::Joined
}

// Writes a record to the image, which is copied to what is lent. The label comes in after it.
pub(crate) fn write(head: Head, both: &[u8], lent: &mut [u8]) -> Reply {
    copy(both, lent);
    let berth = (head.z % 0x1_0000) as u16;
    let end = wire::at_most(both.len(), head.first);
    let answer = labels::write_record(
        lent,
        head.x as usize,
        head.y,
        berth,
        &both[end..],
        form_of(head.w),
    );
    match answer {
        Ok(()) => wire::done(0, 0, 0),
        Err(refusal) => wire::refused(refusal),
    }
}

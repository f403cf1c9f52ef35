// What a record of an image says: its object, berth and label.
ghost use Rattle.std.specs.Prelude.{◌≡◌, ◌+◌, ◌*◌, ◌≤◌, length};
ghost use Rattle.labels.specs.Records.{entry_of};
ghost use Rattle.labels.specs.Images.{record_at, label_at, berth_at};
ghost use Rattle.laws.specs.Writing.{front};

// What a record says beside its label: the object, the berth (0 for none) and the label's length.
#[derive(Clone, Copy, Debug, PartialEq, Eq)]
pub struct Entry {
    pub object: u32,
    pub berth: u16,
    pub length: usize,
}

// What a record says. Its numbers are written high byte first.
fn entry_of(bytes: &[u8]) -> Entry
    requires { length bytes.now ≡ 96 }
    ensures { result ≡ entry_of bytes.now }
{
    Entry {
        object: u32::from_be_bytes([bytes[0], bytes[1], bytes[2], bytes[3]]),
        berth: u16::from_be_bytes([bytes[4], bytes[5]]),
        length: bytes[6] as usize,
    }
}

// What a record of an image says beside its label.
pub(crate) fn entry_at(image: &[u8], number: usize) -> Entry
    requires { 96 * number + 96 ≤ length image.now }
    ensures { result ≡ entry_of (record_at image.now number) }
{
    let at = 96 * number;
    let end = at + 96;
    entry_of(&image[at..end])
}

// The label of a record: none if the image does not have that record, or if its length is over 88.
pub fn label_at(image: &[u8], number: usize) -> &[u8]
    ensures { result.now ≡ label_at image.now number }
{
    if image.len() / 96 <= number {
        return &image[..0];
    }
    let at = 96 * number;
    let size = image[at + 6] as usize;
    if 88 < size {
        return &image[..0];
    }
    let start = at + 8;
    let end = start + size;
    &image[start..end]
}

// The berth of a record: 0 if the image does not have that record.
pub fn berth_at(image: &[u8], number: usize) -> u16
    ensures { result ≡ berth_at image.now number }
{
    if image.len() / 96 <= number {
        return 0;
    }
    let entry = entry_at(image, number);
    entry.berth
}

// Copies all bytes to the front of `out`, which has room for them.
pub(crate) fn copy(bytes: &[u8], out: &mut [u8])
    requires { length bytes.now ≤ length out.old }
    ensures { out.new ≡ front bytes.now out.old }
{
    out[..bytes.len()].copy_from_slice(bytes);
}

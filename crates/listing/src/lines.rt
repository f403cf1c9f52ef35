// The lines that the lister prints: for each joined character its code and its name (document 01,
// 'Programs').
ghost use Rattle.std.specs.Prelude.{◌≤◌, length, ◌≡◌};
ghost use Rattle.laws.specs.Writing.{Room, Wrote, Fronts};
ghost use Rattle.listing.specs.Line.{name_or_none, line_of};
ghost use Rattle.answers.specs.Checks.{no_room};
ghost use Rattle.answers.specs.Answers.{checked};
ghost use Rattle.listing.specs.Listing.{listed, Lists};

use answers::Refusal;

// Writes the name of a syllable, or - for any other character, from `at` on, and answers the index
// after it. There is room, so naming refuses nothing but a character that is no syllable.
fn put_name(code: u32, out: &mut [u8], at: usize) -> usize
    requires { Room out.old at (name_or_none code) }
    ensures { Wrote out.old at (name_or_none code) result out.new }
{
    match names::name(code, &mut out[at..]) {
        Ok(length) => at + length,
        Err(_) => {
            out[at] = b'-';
            at + 1
        }
    }
}

// Writes a character's line from `at` on, and answers the index after it.
fn put_line(code: u32, out: &mut [u8], at: usize) -> usize
    requires { Room out.old at (line_of code) }
    ensures { Wrote out.old at (line_of code) result out.new }
{
    let after_code = crate::hex::put_hex(code, out, at);
    out[after_code] = b' ';
    let after_name = put_name(code, out, after_code + 1);
    out[after_name] = b'\n';
    after_name + 1
}

// Writes the list to the front of `out`, which has room for it.
fn list_into(text: &[u8], out: &mut [u8]) -> usize
    requires text_len_bound { length text.now ≤ 16384 }
    requires text_in_bounds { length (listed text.now) ≤ length out.old }
    ensures { Fronts (listed text.now) out.old result out.new }
{
    let mut read = 0;
    let mut written = 0;
    // No `for`: a turn goes on by as many bytes as the character takes.
    while read < text.len() {
        let taken = mending::character_at(text, read);
        written = put_line(taken.code, out, written);
        read += taken.size;
    }
    written
}

// How long the list is. Each line is written to the same 32 bytes; the longest has 29.
fn listed_count(text: &[u8]) -> usize
    requires { length text.now ≤ 16384 }
    ensures { result ≡ length (listed text.now) }
{
    let mut line = [0; 32];
    let mut read = 0;
    let mut length = 0;
    // No `for`: a turn goes on by as many bytes as the character takes.
    while read < text.len() {
        let taken = mending::character_at(text, read);
        length += put_line(taken.code, &mut line, 0);
        read += taken.size;
    }
    length
}

// The check of the room: 3. Ten for each byte are always enough, and then nothing is counted.
fn check_list_room(text: &[u8], room: usize) -> Result<(), Refusal>
    requires { length text.now ≤ 16384 }
    ensures { checked result ≡ no_room room (length (listed text.now)) }
{
    if 10 * text.len() <= room {
        return Ok(());
    }
    answers::check_room(room, listed_count(text))
}

// Lists the characters of a text of bytes into a lent buffer: refusals 1 and 3.
pub fn list(text: &[u8], out: &mut [u8]) -> Result<usize, Refusal>
    ensures { Lists text.now out.old result out.new }
{
    answers::check_bytes(text)?;
    check_list_room(text, out.len())?;
    Ok(list_into(text, out))
}

// Fast path for what mending leaves as it is: runs of ASCII, and of characters from A000 to D7FF to
// which nothing joins.
ghost use Rattle.std.specs.Prelude.{◌≡◌, true, ◌≤◌, length};
ghost use Rattle.mending.specs.Inner.{Passes, Low, word_of, Three, Lead};

fn wide(byte: u8) -> u64
    ensures { result ≡ byte }
{
    byte as u64
}

// Eight bytes as one number, written so that it compiles to one load.
fn word(a: u8, b: u8, c: u8, d: u8, e: u8, f: u8, g: u8, h: u8) -> u64
    ensures { result ≡ word_of a b c d e f g h }
{
    wide(a)
        + wide(b) * 0x100
        + wide(c) * 0x10000
        + wide(d) * 0x1000000
        + wide(e) * 0x100000000
        + wide(f) * 0x10000000000
        + wide(g) * 0x1000000000000
        + wide(h) * 0x100000000000000
}

// Are all eight ASCII?
fn are_low(a: u8, b: u8, c: u8, d: u8, e: u8, f: u8, g: u8, h: u8) -> bool
    ensures { result ≡ true → Low a b c d e f g h }
{
    word(a, b, c, d, e, f, g, h) & 0x8080808080808080 == 0
}

// ASCII, eight bytes at once.
fn eights(text: &[u8], from: usize) -> usize
    requires { from ≤ length text.now }
    ensures { Passes text.now from result }
{
    let mut at = from;
    // a while: a for over chunks_exact(8) would lose at which index it stops
    while text.len() - at >= 8 {
        if !are_low(
            text[at],
            text[at + 1],
            text[at + 2],
            text[at + 3],
            text[at + 4],
            text[at + 5],
            text[at + 6],
            text[at + 7],
        ) {
            return at;
        }
        at += 8;
    }
    at
}

// ASCII, byte by byte.
fn ones(text: &[u8], from: usize) -> usize
    requires { from ≤ length text.now }
    ensures { Passes text.now from result }
{
    for at in from..text.len() {
        if text[at] >= 0x80 {
            return at;
        }
    }
    text.len()
}

// ASCII, if the text goes on so. Here, in `syllables` and in `run` the end of the text is tested
// first, though what follows would find it: short texts take fewer instructions so.
fn ascii(text: &[u8], from: usize) -> usize
    requires { from ≤ length text.now }
    ensures { Passes text.now from result }
{
    if text.len() <= from {
        return from;
    }
    if text[from] >= 0x80 {
        return from;
    }
    let low = eights(text, from);
    ones(text, low)
}

// The first two bytes of a character from A000 to D7FF: as one number they lie between EA80 and
// ED9F.
fn is_lead(a: u8, b: u8) -> bool
    ensures { result ≡ true → Lead a b }
{
    match a as u32 * 0x100 + b as u32 {
        0xEA80..=0xED9F => utf8::is_continuation(b),
        _ => false,
    }
}

// A character from A000 to D7FF, and after it no letter of the block 1100–11FF.
pub(crate) fn is_three(a: u8, b: u8, c: u8, d: u8) -> bool
    ensures { result ≡ true → Three a b c d }
{
    is_lead(a, b) && utf8::is_continuation(c) && d != 0xE1
}

// Characters from A000 to D7FF to which nothing can join, as long as there are four bytes. A byte
// is read when those before it fit, so the end of a run is found by its first byte.
fn threes(text: &[u8], from: usize) -> usize
    requires { from ≤ length text.now }
    ensures { Passes text.now from result }
{
    let mut at = from;
    // a while: it steps by three, and looks at a fourth byte
    while text.len() - at >= 4 {
        if !is_lead(text[at], text[at + 1]) {
            return at;
        }
        if !utf8::is_continuation(text[at + 2]) {
            return at;
        }
        if text[at + 3] == 0xE1 {
            return at;
        }
        at += 3;
    }
    at
}

// The same for the last three bytes of a text.
fn last_three(text: &[u8], at: usize) -> usize
    requires { at ≤ length text.now }
    ensures { Passes text.now at result }
{
    if text.len() - at != 3 {
        return at;
    }
    if !is_three(text[at], text[at + 1], text[at + 2], 0) {
        return at;
    }
    at + 3
}

// Characters from A000 to D7FF, if the text goes on so.
fn syllables(text: &[u8], from: usize) -> usize
    requires { from ≤ length text.now }
    ensures { Passes text.now from result }
{
    if text.len() <= from {
        return from;
    }
    let end = threes(text, from);
    last_three(text, end)
}

// A run of ASCII, and after it one of characters from A000 to D7FF.
pub(crate) fn run(text: &[u8], from: usize) -> usize
    requires { from ≤ length text.now }
    ensures { Passes text.now from result }
{
    if text.len() <= from {
        return from;
    }
    let low = ascii(text, from);
    syllables(text, low)
}

// As far as runs follow each other: after one that does not end before ASCII there is none.
pub(crate) fn passing(text: &[u8], from: usize) -> usize
    requires { from ≤ length text.now }
    ensures { Passes text.now from result }
{
    let mut at = from;
    // a while: it steps by as many bytes as passed
    while at < text.len() {
        let end = run(text, at);
        if end == at {
            return at;
        }
        if utf8::byte_at(text, end) >= 0x80 {
            return end;
        }
        at = end;
    }
    at
}

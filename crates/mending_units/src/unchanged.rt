// Fast path for what mending leaves as it is: runs of units that are neither letters of the block
// 1100–11FF nor surrogates, and surrogate pairs.
ghost use Rattle.std.specs.Prelude.{◌≡◌, true, ◌≤◌, length};
ghost use Rattle.mending_units.specs.Inner.{quiet, Plain, four_of, PassesUnits, Trails};

fn wide(unit: u16) -> u64
    ensures { result ≡ unit }
{
    unit as u64
}

// Four units as one number, written so that it compiles to one load.
fn four(a: u16, b: u16, c: u16, d: u16) -> u64
    ensures { result ≡ four_of a b c d }
{
    wide(a) + wide(b) * 0x10000 + wide(c) * 0x100000000 + wide(d) * 0x1000000000000
}

// Are all four below 1000?
fn are_plain(a: u16, b: u16, c: u16, d: u16) -> bool
    ensures { result ≡ true → Plain a b c d }
{
    four(a, b, c, d) & 0xF000F000F000F000 == 0
}

// Units below 1000, four at once.
fn fours(text: &[u16], from: usize) -> usize
    requires { from ≤ length text.now }
    ensures { PassesUnits text.now from result }
{
    let mut at = from;
    // a while: a for over chunks_exact(4) would lose at which index it stops
    while text.len() - at >= 4 {
        if !are_plain(text[at], text[at + 1], text[at + 2], text[at + 3]) {
            return at;
        }
        at += 4;
    }
    at
}

// Is it neither a letter of the block 1100–11FF nor a surrogate?
fn is_quiet(unit: u32) -> bool
    ensures { result ≡ quiet unit }
{
    if crate::lone::is_within(0x1100, 0x11FF, unit) {
        return false;
    }
    !crate::lone::is_within(0xD800, 0xDFFF, unit)
}

// Such units one by one: the last of them may join with what follows.
fn singles(text: &[u16], from: usize) -> usize
    requires { from ≤ length text.now }
    ensures { Trails text.now from result }
{
    for at in from..text.len() {
        if !is_quiet(text[at] as u32) {
            return at;
        }
    }
    text.len()
}

// Gives the last of them back if it may be a syllable and a letter follows.
fn kept(text: &[u16], from: usize, end: usize) -> usize
    requires { Trails text.now from end }
    ensures { PassesUnits text.now from result }
{
    if end <= from {
        return from;
    }
    if !crate::lone::is_within(0x1100, 0x11FF, utf16::unit_at(text, end)) {
        return end;
    }
    if text[end - 1] < 0x1100 {
        return end;
    }
    end - 1
}

// A surrogate pair, if there is one.
fn pair(text: &[u16], at: usize) -> usize
    requires { at ≤ length text.now }
    ensures { PassesUnits text.now at result }
{
    if text.len() - at < 2 {
        return at;
    }
    if !crate::lone::is_within(0xD800, 0xDBFF, text[at] as u32) {
        return at;
    }
    if !crate::lone::is_within(0xDC00, 0xDFFF, text[at + 1] as u32) {
        return at;
    }
    at + 2
}

// A run of such units, and after it a pair.
pub(crate) fn run(text: &[u16], from: usize) -> usize
    requires { from ≤ length text.now }
    ensures { PassesUnits text.now from result }
{
    let plain = fours(text, from);
    let end = kept(text, plain, singles(text, plain));
    pair(text, end)
}

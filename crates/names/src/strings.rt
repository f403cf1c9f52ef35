// The strings of names in three constant tables (document 01, 'Names').
ghost use Rattle.std.specs.Prelude.{◌≡◌, ◌≤◌, ◌<◌, [], length, map, slice_index_or};
ghost use Rattle.names.specs.Names.{initials, peaks, finals};
ghost use Rattle.names.specs.Inner.{string_of, InitialRows, PeakRows, FinalRows};

// I, P and F: what a syllable's three strings are picked by.
#[derive(Clone, Copy, Debug, PartialEq, Eq)]
pub(crate) struct Indices {
    pub initial: usize,
    pub peak: usize,
    pub last: usize,
}

// A string in four bytes: its length as a digit, then its letters, filled up with spaces. A table of
// slices would hold addresses, which a loader has to write, and the archive for C keeps no byte that
// can be written.
pub(crate) type Row = [u8; 4];

static INITIALS: [Row; 19] = [
    *b"1G  ", *b"2GG ", *b"1N  ", *b"1D  ", *b"2DD ", *b"1R  ", *b"1M  ", *b"1B  ", *b"2BB ",
    *b"1S  ", *b"2SS ", *b"0   ", *b"1J  ", *b"2JJ ", *b"1C  ", *b"1K  ", *b"1T  ", *b"1P  ",
    *b"1H  ",
];

static PEAKS: [Row; 21] = [
    *b"1A  ", *b"2AE ", *b"2YA ", *b"3YAE", *b"2EO ", *b"1E  ", *b"3YEO", *b"2YE ", *b"1O  ",
    *b"2WA ", *b"3WAE", *b"2OE ", *b"2YO ", *b"1U  ", *b"3WEO", *b"2WE ", *b"2WI ", *b"2YU ",
    *b"2EU ", *b"2YI ", *b"1I  ",
];

static FINALS: [Row; 28] = [
    *b"0   ", *b"1G  ", *b"2GG ", *b"2GS ", *b"1N  ", *b"2NJ ", *b"2NH ", *b"1D  ", *b"1L  ",
    *b"2LG ", *b"2LM ", *b"2LB ", *b"2LS ", *b"2LT ", *b"2LP ", *b"2LH ", *b"1M  ", *b"1B  ",
    *b"2BS ", *b"1S  ", *b"2SS ", *b"2NG ", *b"1J  ", *b"1C  ", *b"1K  ", *b"1T  ", *b"1P  ",
    *b"1H  ",
];

// The strings of the initials.
pub(crate) fn initials() -> &'static [Row; 19]
    ensures bytes { InitialRows result.now }
    ensures strings { map string_of result.now ≡ initials }
{
    &INITIALS
}

// The strings of the peaks.
pub(crate) fn peaks() -> &'static [Row; 21]
    ensures bytes { PeakRows result.now }
    ensures strings { map string_of result.now ≡ peaks }
{
    &PEAKS
}

// The strings of the finals.
pub(crate) fn finals() -> &'static [Row; 28]
    ensures bytes { FinalRows result.now }
    ensures strings { map string_of result.now ≡ finals }
{
    &FINALS
}

// The string of a row. The length is a digit from 0 to 3, so its number is the digit modulo 4.
pub(crate) fn letters(row: &Row) -> &[u8]
    ensures string { result.now ≡ string_of row.now }
    ensures few { length result.now ≤ 3 }
{
    let size = (row[0] % 4) as usize;
    &row[1..1 + size]
}

// The string of an initial.
pub(crate) fn initial(index: usize) -> &'static [u8]
    requires { index < 19 }
    ensures { result.now ≡ slice_index_or initials index [] }
{
    letters(&initials()[index])
}

// The string of a peak.
pub(crate) fn peak(index: usize) -> &'static [u8]
    requires { index < 21 }
    ensures { result.now ≡ slice_index_or peaks index [] }
{
    letters(&peaks()[index])
}

// The string of a final.
pub(crate) fn last(index: usize) -> &'static [u8]
    requires { index < 28 }
    ensures { result.now ≡ slice_index_or finals index [] }
{
    letters(&finals()[index])
}

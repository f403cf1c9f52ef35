// Reading operands: numbers in capital hex with single spaces between. A field that is not well
// formed is found before any number of it is answered.
ghost use Rattle.std.specs.Prelude.{◌≤◌, ◌<◌, length, IfSome};

// The digit that a byte stands for: capital letters alone, as in every answer.
fn digit_of(byte: u8) -> Option<u8>
    ensures { IfSome result (λ digit. digit < 16) }
{
    match byte {
        b'0'..=b'9' => Some(byte - b'0'),
        b'A'..=b'F' => Some(byte - b'A' + 10),
        _ => None,
    }
}

// A code, of four to six digits.
pub(crate) fn code(field: &[u8]) -> Option<u32> {
    if field.len() < 4 || 6 < field.len() {
        return None;
    }
    let mut code = 0u32;
    for byte in field {
        code = code << 4 | u32::from(digit_of(*byte)?);
    }
    Some(code)
}

// A byte, of two digits.
fn byte(field: &[u8]) -> Option<u8> {
    match field {
        [high, low] => Some(digit_of(*high)? << 4 | digit_of(*low)?),
        _ => None,
    }
}

// Are operands texts of codes with `;` between?
pub(crate) fn are_texts(operands: &[u8]) -> bool {
    operands
        .split(|byte| *byte == b' ' || *byte == b';')
        .all(|field| code(field).is_some())
}

// Reads numbers with single spaces between: none if one of them is none, or if `out` has no room
// for all.
fn numbers<'a, T: Copy, F: Fn(&[u8]) -> Option<T>>(
    text: &[u8],
    read: F,
    out: &'a mut [T],
) -> Option<&'a [T]>
    requires { F.IsAlwaysCallable read }
    ensures { IfSome result (λ numbers. length numbers.now ≤ length out.old) }
{
    let mut count = 0;
    for field in text.split(|byte| *byte == b' ') {
        if out.len() <= count {
            return None;
        }
        out[count] = read(field)?;
        count += 1;
    }
    out.get(..count)
}

// Reads the codes of a text.
pub(crate) fn codes<'a>(text: &[u8], out: &'a mut [u32]) -> Option<&'a [u32]>
    ensures { IfSome result (λ codes. length codes.now ≤ length out.old) }
{
    numbers(text, code, out)
}

// Reads the bytes of a field.
pub(crate) fn bytes<'a>(field: &[u8], out: &'a mut [u8]) -> Option<&'a [u8]>
    ensures { IfSome result (λ bytes. length bytes.now ≤ length out.old) }
{
    numbers(field, byte, out)
}

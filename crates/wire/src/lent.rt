// What is lent to a call: how much of a buffer, and what it holds before the call.
ghost use Rattle.std.specs.Prelude.{◌≡◌, cond, ◌≤◌, ltb, length, replicate};

// A size, or the most if it is larger.
pub fn at_most(most: usize, size: usize) -> usize
    ensures value { result ≡ cond (ltb size most) size most }
    ensures upper_bound { result ≤ most }
    ensures upper_bound_2 { result ≤ size }
{
    size.min(most)
}

// A size if there is any, else nothing.
pub fn if_so(so: bool, size: usize) -> usize
    ensures value { result ≡ cond so size 0 }
    ensures upper_bound { result ≤ size }
{
    if so { size } else { 0 }
}

// What a lent buffer holds before a call: the byte A5 only.
pub trait Lent: Copy {
    ghost FILL: { Self };

    const FILL: Self;
}

impl Lent for u32 {
    ghost FILL = { 0xA5A5A5A5 };

    const FILL: u32 = 0xA5A5_A5A5;
}

impl Lent for u16 {
    ghost FILL = { 0xA5A5 };

    const FILL: u16 = 0xA5A5;
}

impl Lent for u8 {
    ghost FILL = { 0xA5 };

    const FILL: u8 = 0xA5;
}

// Fills a buffer with it.
pub fn fill<T: Lent>(out: &mut [T])
    ensures { out.new ≡ replicate (length out.old) T.FILL }
{
    for element in out.iter_mut() {
        *element = T::FILL;
    }
}

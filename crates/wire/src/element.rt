// What stands on the wire one after the other, low byte first: numbers of 32 bits and units of 16.
ghost use Rattle.std.specs.Prelude.{◌≡◌, ℕ, ◌*◌, ◌<◌, List, length};
ghost use Rattle.std.proofs.lemmas.List.Edits.{sets};
ghost use Rattle.laws.specs.Lists.{each};
ghost use Rattle.laws.specs.Writing.{fitted};
ghost use Rattle.wire.specs.Numbers.{element_at, elements_of};

pub trait Element: Copy {
    ghost SIZE: { ℕ };

    // How many bytes an element is.
    const SIZE: usize;

    // The element that stands first in some bytes, and the bytes of an element.
    ghost first: { List ℕ → Self };

    ghost bytes_of: { Self → List ℕ };

    // The element at an index, counted in elements: 0 if the bytes end before it does.
    fn at(bytes: &[u8], index: usize) -> Self
        ensures { result ≡ element_at SIZE first bytes.now index };

    // Writes the element at an index, counted in elements: nothing if the bytes end before it does.
    fn put(self, index: usize, bytes: &mut [u8])
        ensures { bytes.new ≡ sets bytes.old (SIZE * index) (fitted (bytes_of self) bytes.old (SIZE * index)) };

    ghost has_bytes: { 0 < SIZE };

    ghost sized: { (element : Self) → length (bytes_of element) ≡ SIZE };
}

// Reads as many elements as `out` has.
pub fn read<T: Element>(bytes: &[u8], out: &mut [T])
    ensures { out.new ≡ elements_of T.SIZE T.first (length out.old) bytes.now }
{
    for (i, element) in out.iter_mut().enumerate() {
        *element = T::at(bytes, i);
    }
}

// Writes the elements to the front: nothing if there is no room for all of them.
pub fn put<T: Element>(elements: &[T], bytes: &mut [u8])
    ensures { bytes.new ≡ sets bytes.old 0 (fitted (each T.bytes_of elements.now) bytes.old 0) }
{
    if bytes.len() / T::SIZE < elements.len() {
        return;
    }
    for (i, element) in elements.iter().enumerate() {
        element.put(i, bytes);
    }
}

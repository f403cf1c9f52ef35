// What reading a text of code units answers, in any encoding form.
ghost use Rattle.std.specs.Prelude.{◌≡◌};
ghost use Rattle.encodings.specs.Reading.{good_of, ill_of};

// What begins at an index: the code point, how many units it takes, and 1 if they are an ill-formed
// subpart, which reads as FFFD. After the end all three are 0.
#[derive(Clone, Copy, Debug, PartialEq, Eq)]
pub struct Taken {
    pub code: u32,
    pub size: usize,
    pub ill: usize,
}

impl Taken {
    // A code point of so many units.
    pub fn good(code: u32, size: usize) -> Taken
        ensures { result ≡ good_of code size }
    {
        Taken { code, size, ill: 0 }
    }

    // An ill-formed subpart of so many units.
    pub fn ill(size: usize) -> Taken
        ensures { result ≡ ill_of size }
    {
        Taken {
            code: 0xFFFD,
            size,
            ill: 1,
        }
    }
}

// How long what was made of units is, and how many ill-formed subparts the units have.
#[derive(Clone, Copy, Debug, PartialEq, Eq)]
pub struct Counted {
    pub length: usize,
    pub ills: usize,
}

// The three numbers that every call for C answers, and a count and a refusal in them.
ghost use Rattle.std.specs.Prelude.{◌≡◌, ◌≤◌};
ghost use Rattle.answers.specs.Verdicts.{done};
ghost use Rattle.pulphopper.specs.Refusals.{refused_answer};
ghost use Rattle.pulphopper.specs.Replies.{counted_answer};

use answers::Refusal;
use encodings::Counted;

// The answer of every call. A refusal is its number, and value its place; 0 is none.
#[repr(C)]
#[derive(Clone, Copy)]
pub struct Answer {
    pub refusal: u32,
    pub count: u32,
    pub value: u64,
}

// The answer of a call that is done: a length, and how many ill-formed subparts were counted.
pub(crate) fn counted(counted: Counted) -> Answer
    requires { counted.ills ≤ 16384 }
    ensures { result ≡ counted_answer (done counted) }
{
    Answer {
        refusal: 0,
        count: counted.ills as u32,
        value: counted.length as u64,
    }
}

pub(crate) fn refused(refusal: Refusal) -> Answer
    ensures { result ≡ refused_answer refusal }
{
    let told = answers::tell(refusal);
    Answer {
        refusal: told.number,
        count: 0,
        value: told.place as u64,
    }
}

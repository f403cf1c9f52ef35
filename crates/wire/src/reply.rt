// The four numbers of an answer: the refusal (0 if done), the value, the second and the third.
ghost use Rattle.std.specs.Prelude.{◌≡◌};
ghost use Rattle.std.proofs.lemmas.List.Edits.{sets};
ghost use Rattle.laws.specs.Writing.{fitted};
ghost use Rattle.wire.specs.Messages.{short, done_reply, refused_reply, filled_reply, reply_bytes};

use crate::element::put;
use answers::Refusal;

#[derive(Clone, Copy)]
pub struct Reply {
    pub refusal: u32,
    pub value: u32,
    pub second: u32,
    pub third: u32,
}

// A length or a place as a number of 32 bits: all that come here are below 2^32.
fn shortened(n: usize) -> u32
    ensures { result ≡ short n }
{
    (n % 0x1_0000_0000) as u32
}

pub fn done(value: u32, second: u32, third: u32) -> Reply
    ensures { result ≡ done_reply value second third }
{
    Reply {
        refusal: 0,
        value,
        second,
        third,
    }
}

// The answer of a call that is done, if what it answers are lengths.
pub fn counted(value: usize, second: usize) -> Reply
    ensures { result ≡ done_reply (short value) (short second) 0 }
{
    done(shortened(value), shortened(second), 0)
}

pub fn refused(refusal: Refusal) -> Reply
    ensures { result ≡ refused_reply refusal }
{
    let told = answers::tell(refusal);
    Reply {
        refusal: told.number,
        value: shortened(told.place),
        second: 0,
        third: 0,
    }
}

pub fn filled(answer: Result<usize, Refusal>) -> Reply
    ensures { result ≡ filled_reply answer }
{
    match answer {
        Ok(length) => counted(length, 0),
        Err(refusal) => refused(refusal),
    }
}

// Writes the answer's numbers to the front: nothing if there is no room for all of them.
#[tactic(auto, unfolding(crate::specs::Messages::reply_bytes))]
pub fn put_reply(answer: Reply, bytes: &mut [u8])
    ensures { bytes.new ≡ sets bytes.old 0 (fitted (reply_bytes answer) bytes.old 0) }
{
    let numbers = [answer.refusal, answer.value, answer.second, answer.third];
    put(&numbers, bytes);
}

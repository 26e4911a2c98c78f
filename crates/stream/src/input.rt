// What a stream keeps, and the fragment that comes after it.
ghost use Rattle.std.specs.Prelude.{◌≡◌, ◌++◌, ◌+◌, ◌-◌, ◌*◌, ◌/◌, ◌≤◌, length, replicate};
ghost use Rattle.records.specs.Records.{Many};
ghost use Rattle.stream.specs.Stream.{keeping, whole, rest};

use crate::Stream;
use answers::Refusal;
use records::{ANSWER, RECORD};
use std::marker::Model;

// An input in two parts: at most 16 bytes that were kept, and a fragment. A clause sees all its bytes.
#[derive(Drop)]
pub(crate) struct Input<'a> {
    kept: &'a [u8],
    fragment: &'a [u8],
}

impl<'a> Model for Input<'a> {
    ghost use Rattle.std.specs.Prelude.{List, ℕ, ◌++◌, ◌≤◌, length};

    ghost Value = { List ℕ };

    ghost view = { λ a. a.kept.now ++ a.fragment.now };

    ghost invariant = { λ a. length a.kept.now ≤ 16 };
}

impl<'a> Input<'a> {
    pub(crate) fn new(kept: &'a [u8], fragment: &'a [u8]) -> Input<'a>
        requires { length kept.now ≤ 16 }
        ensures { result ≡ kept.now ++ fragment.now }
    {
        Input { kept, fragment }
    }

    // How many bytes its whole records are.
    fn whole_len(&self) -> usize
        ensures { result ≡ 17 * (length self.now / 17) }
    {
        let len = self.kept.len() + self.fragment.len();
        len - len % RECORD
    }

    // The answers to its whole records, as `records::many` gives them: the first record is put together, and the others stand
    // in the fragment. What is refused of a record stands in its answer.
    pub(crate) fn answer(&self, output: &mut [u8]) -> Result<u64, Refusal>
        ensures { Many (whole self.now) output.old result output.new }
    {
        let past = self.whole_len();
        let size = ANSWER * (past / RECORD);
        if output.len() < size {
            return Err(Refusal::NoRoom);
        }
        if past > 0 {
            let missing = RECORD - self.kept.len();
            let first = joined::<RECORD>(self.kept, &self.fragment[..missing]);
            let others = &self.fragment[missing..past - self.kept.len()];
            let _ = records::one(&first, &mut output[..ANSWER]);
            let _ = records::many(others, &mut output[ANSWER..]);
        }
        Ok(size as u64)
    }

    // The state that keeps what is left after its whole records.
    pub(crate) fn rest(&self) -> Stream
        ensures { result ≡ keeping (rest self.now) }
    {
        let past = self.whole_len();
        if past == 0 {
            keep(self.kept, self.fragment)
        } else {
            keep(&[], &self.fragment[past - self.kept.len()..])
        }
    }
}

// The state that keeps one list of bytes and then another.
#[tactic(auto, unfolding(crate::specs::Stream::keeping))]
fn keep(first: &[u8], second: &[u8]) -> Stream
    requires { length first.now + length second.now ≤ 16 }
    ensures { result ≡ keeping (first.now ++ second.now) }
{
    Stream {
        bytes: joined(first, second),
        count: (first.len() + second.len()) as u8,
    }
}

// One list of bytes and then another, and zeros up to a length.
#[tactic(auto, using(crate::proofs::Zeros::zeros_behind))]
fn joined<const N: usize>(first: &[u8], second: &[u8]) -> [u8; N]
    requires { length first.now + length second.now ≤ N }
    ensures { result ≡ (first.now ++ second.now) ++ replicate (N - (length first.now + length second.now)) 0 }
{
    let at = first.len();
    let end = at + second.len();
    let mut bytes = [0; N];
    let into = &mut bytes[..];
    into[..at].copy_from_slice(first);
    into[at..end].copy_from_slice(second);
    bytes
}

// Records that come in fragments: each is answered as soon as it is whole, and at most 16 bytes are kept between calls.
#![tactic(auto)]

ghost use Rattle.std.specs.Prelude.{◌≡◌, []};
ghost use Rattle.answers.specs.Answers.{reads};
ghost use Rattle.stream.specs.Stream.{keeping, kept_reply, outcome, Feeds, Ends};
ghost use Rattle.stream.specs.Packed.{state_of, bytes_of};

use answers::Refusal;
use input::Input;
use records::RECORD;

mod input;

// The bytes that are kept at most, and those of a packed state: these and their count.
const KEPT: usize = RECORD - 1;

const PACKED: usize = KEPT + 1;

// The bytes since the last whole record: the first `count` of them. C may store any count; one above 16 is refused.
#[derive(Clone, Copy)]
pub struct Stream {
    pub bytes: [u8; KEPT],
    pub count: u8,
}

// The state at the start of an input. A derive would say each byte, and not `keeping []`.
impl Default for Stream {
    ghost is_default = { λ s. s ≡ keeping [] };

    #[tactic(auto, unfolding(crate::specs::Stream::keeping))]
    fn default() -> Self {
        Stream {
            bytes: [0; KEPT],
            count: 0,
        }
    }
}

impl Stream {
    // The bytes that are kept, at most 16. Refused where the count says more.
    fn kept(&self) -> Result<&[u8], Refusal>
        ensures { reads (λ b. b.now) result ≡ kept_reply self.now }
    {
        let count = self.count as usize;
        self.bytes.get(..count).ok_or(Refusal::WrongLength)
    }

    // Takes a fragment: the answers to the records that it completes go to the front of the output, and what is left is kept.
    // Refused, with nothing changed, where the count is above 16, or where the answers have no room.
    pub fn feed(&mut self, fragment: &[u8], output: &mut [u8]) -> Result<u64, Refusal>
        ensures { Feeds self.old fragment.now output.old (outcome self.new result) output.new }
    {
        let input = Input::new(self.kept()?, fragment);
        let written = input.answer(output)?;
        *self = input.rest();
        Ok(written)
    }

    // The end of the input: bytes that are left over are answered as a short tail is, and the state is fresh. Refused as `feed` is.
    pub fn end(&mut self, output: &mut [u8]) -> Result<u64, Refusal>
        ensures { Ends self.old output.old (outcome self.new result) output.new }
    {
        let written = records::many(self.kept()?, output)?;
        *self = Self::default();
        Ok(written)
    }
}

// The state that 17 bytes are: 16, and how many of them count.
impl From<[u8; PACKED]> for Stream {
    ghost from_gives = { λ packed s. s ≡ state_of packed };

    #[tactic(auto, unfolding(crate::specs::Packed::state_of))]
    fn from(packed: [u8; PACKED]) -> Self {
        let mut bytes = [0; KEPT];
        bytes.copy_from_slice(&packed[..KEPT]);
        Stream {
            bytes,
            count: packed[KEPT],
        }
    }
}

// The 17 bytes of a state.
impl From<Stream> for [u8; PACKED] {
    ghost from_gives = { λ s packed. packed ≡ bytes_of s };

    #[tactic(auto, using(crate::proofs::Packed::packed))]
    fn from(state: Stream) -> Self {
        let mut packed = [0; PACKED];
        packed[..KEPT].copy_from_slice(&state.bytes);
        packed[KEPT] = state.count;
        packed
    }
}

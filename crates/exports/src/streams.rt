// Records in fragments as C functions: the refusal, or 0. A state is 17 bytes, 16 and how many of them count; all zeros is
// fresh. How many bytes were written, 0 where the call is refused, is left with the caller.
ghost use Rattle.std.specs.Prelude.{◌≡◌};
ghost use Rattle.answers.specs.Answers.{means};
ghost use Rattle.answers.specs.Reply.{refusal_of, natural};
ghost use Rattle.stream.specs.Packed.{ToldFeed, ToldEnd};

use answers::Refusal;
use stream::Stream;

// What a call answered, told in C.
fn tell(reply: Result<u64, Refusal>, written: &mut usize) -> u8
    ensures returns { result ≡ refusal_of (means reply) }
    ensures leaves { written.new ≡ natural (means reply) }
{
    *written = answers::value(reply) as usize;
    answers::refusal_number(reply)
}

#[unsafe(no_mangle)]
pub extern "C" fn ply_stream_feed(
    state: &mut [u8; 17],
    fragment: &[u8],
    output: &mut [u8],
    written: &mut usize,
) -> u8
    ensures { ToldFeed state.old fragment.now output.old result written.new state.new output.new }
{
    let mut stream = Stream::from(*state);
    let reply = stream.feed(fragment, output);
    if reply.is_ok() {
        *state = stream.into();
    }
    tell(reply, written)
}

#[unsafe(no_mangle)]
pub extern "C" fn ply_stream_end(state: &mut [u8; 17], output: &mut [u8], written: &mut usize) -> u8
    ensures { ToldEnd state.old output.old result written.new state.new output.new }
{
    let mut stream = Stream::from(*state);
    let reply = stream.end(output);
    if reply.is_ok() {
        *state = stream.into();
    }
    tell(reply, written)
}

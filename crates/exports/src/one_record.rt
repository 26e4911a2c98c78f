// The one-record call as a C function: the refusal, or 0. Record and answer are each a pointer and a count of bytes.
ghost use Rattle.std.specs.Prelude.{◌≡◌};
ghost use Rattle.answers.specs.Reply.{refusal_of};
ghost use Rattle.records.specs.Records.{one_reply, answered};

#[unsafe(no_mangle)]
pub extern "C" fn ply_record(asked: &[u8], answer: &mut [u8]) -> u8
    ensures returns { result ≡ refusal_of (one_reply asked.now answer.old) }
    ensures leaves { answer.new ≡ answered asked.now answer.old }
{
    answers::refusal_number(records::one(asked, answer))
}

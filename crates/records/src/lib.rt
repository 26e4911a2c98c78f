// Records of 17 bytes and their answers of 9: one, and many.
#![tactic(auto)]

ghost use Rattle.std.specs.Prelude.{◌≡◌, length};
ghost use Rattle.answers.specs.Reply.{mapped};
ghost use Rattle.answers.specs.Answers.{means};
ghost use Rattle.records.specs.Records.{reply_to, Responds, One, Many};

use answers::Refusal;

// The bytes of a record, and of an answer.
pub const RECORD: usize = 17;

pub const ANSWER: usize = 9;

// The reply to a record, or to a tail that is too short to be one.
#[tactic(auto, using(crate::proofs::Coded::short, crate::proofs::Coded::replies))]
fn reply_to(asked: &[u8]) -> Result<u64, Refusal>
    ensures { means result ≡ reply_to asked.now }
{
    if asked.len() != RECORD {
        return Err(Refusal::WrongLength);
    }
    let head = asked[0];
    let a = fields::get(&asked[1..9]);
    let b = fields::get(&asked[9..17]);
    operations::answer(head / 16, head % 16, a, b)
}

// The answer's nine bytes.
fn respond(asked: &[u8], answer: &mut [u8]) -> Result<(), Refusal>
    requires { length answer.old ≡ ANSWER }
    ensures { Responds asked.now result answer.new }
{
    let reply = reply_to(asked);
    // The value before the first byte: the compiler makes one store of eight bytes, but not of nine.
    fields::put(answers::value(reply), &mut answer[1..]);
    answer[0] = answers::refusal_number(reply) * 16;
    reply.map(|_| ())
}

// One record: its answer is written, accepted or refused. A record or an answer of wrong length is refused, and nothing written.
pub fn one(asked: &[u8], answer: &mut [u8]) -> Result<(), Refusal>
    ensures { One asked.now answer.old result answer.new }
{
    if asked.len() != RECORD {
        return Err(Refusal::WrongLength);
    }
    if answer.len() != ANSWER {
        return Err(Refusal::WrongLength);
    }
    respond(asked, answer)
}

// All the records of an input, with a short tail, in order: the number of bytes written, or refused where they do not fit.
#[tactic(auto, using(crate::proofs::Loop::counted, crate::proofs::Loop::left_start, crate::proofs::Loop::left_none, crate::proofs::Loop::many_answered))]
pub fn many(input: &[u8], output: &mut [u8]) -> Result<u64, Refusal>
    ensures { Many input.now output.old result output.new }
{
    let size = ANSWER * input.len().div_ceil(RECORD);
    if output.len() < size {
        return Err(Refusal::NoRoom);
    }

    // The output by place: of what `chunks_mut` lends, a proof knows the length alone afterwards.
    for (i, asked) in input.chunks(RECORD).enumerate() {
        let place = ANSWER * i;
        let _ = respond(asked, &mut output[place..place + ANSWER]);
    }
    Ok(size as u64)
}

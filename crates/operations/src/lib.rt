// What a record's fields are answered: the operation at its width, unless refused with 11 or 12.
#![tactic(auto)]

mod codes;
mod kinds;
mod operands;

ghost use Rattle.std.specs.Prelude.{◌≡◌};
ghost use Rattle.answers.specs.Answers.{means};
ghost use Rattle.operations.specs.Operations.{answer_of};

use answers::Refusal;
use codes::{Kind, Operation};
use kinds::{signed, unsigned};
use operands::Operands;

// Of any two bytes as codes: a record brings them as the halves of its first byte, unchecked.
#[tactic(auto, using(crate::proofs::Answered::not_operation, crate::proofs::Answered::not_kind, crate::proofs::Answered::at_codes), unfolding(crate::specs::Operations::width_of))]
pub fn answer(op: u8, width: u8, a: u64, b: u64) -> Result<u64, Refusal>
    ensures { means result ≡ answer_of op width a b }
{
    let operation = Operation::try_from(op)?;
    let operands = Operands { a, b };
    match Kind::try_from(width)? {
        Kind::U8 => unsigned::<u8, _>(operation, operands),
        Kind::U16 => unsigned::<u16, _>(operation, operands),
        Kind::U32 => unsigned::<u32, _>(operation, operands),
        Kind::U64 => unsigned::<u64, _>(operation, operands),
        Kind::I8 => signed::<i8>(operation, operands),
        Kind::I16 => signed::<i16>(operation, operands),
        Kind::I32 => signed::<i32>(operation, operands),
        Kind::I64 => signed::<i64>(operation, operands),
    }
}

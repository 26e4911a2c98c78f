// The operations at each type, on operands and results as bits. Each has operands and a number of its own kind, so they are matched.
ghost use Rattle.std.specs.Prelude.{◌≡◌, true, false};
ghost use Rattle.std.proofs.Common.{of_z};
ghost use Rattle.answers.specs.Answers.{means};
ghost use Rattle.operations.specs.Codes.{operation_code};
ghost use Rattle.operations.specs.Operands.{AnsweredAt};

use crate::codes::Operation;
use crate::operands::Operands;
use answers::Refusal;
use int_bits::{Word, gather, scatter};
use int_log10::{Log10, checked_ilog10};
use int_macros::{cast_signed, cast_unsigned, next_multiple_of, rem_euclid};
use int_sqrt::{checked_isqrt, isqrt};
use widths::{Signed, Unsigned};

// What an operation gives at an unsigned type. Never inlined: beside these tests the record's bytes would be read one by one.
#[tactic(auto, using(crate::proofs::Answered::at_unsigned))]
#[inline(never)]
pub(crate) fn unsigned<T: Word<STAGES> + Log10, const STAGES: usize>(
    operation: Operation,
    operands: Operands,
) -> Result<u64, Refusal>
    ensures { AnsweredAt T.width false (operation_code operation) operands.a operands.b (means result) }
{
    match operation {
        Operation::Root => Ok(isqrt(operands.lone::<T>()?).widen()),
        Operation::Log => checked_ilog10(operands.lone::<T>()?).map(u64::from),
        Operation::Gather => {
            let (x, mask) = operands.both::<T>()?;
            Ok(gather(x, mask).widen())
        }
        Operation::Scatter => {
            let (x, mask) = operands.both::<T>()?;
            Ok(scatter(x, mask).widen())
        }
        Operation::Remainder | Operation::NextMultiple => Err(Refusal::NoOperation),
    }
}

// The bits of a signed number, as the widest word.
fn in_bits<T: Signed>(z: T) -> u64
    ensures { result ≡ of_z T.width (T.whole z) }
{
    cast_unsigned(z).widen()
}

// What an operation gives at a signed type. Never inlined, as above.
#[tactic(auto, using(crate::proofs::Answered::at_signed))]
#[inline(never)]
pub(crate) fn signed<T: Signed + Log10>(
    operation: Operation,
    operands: Operands,
) -> Result<u64, Refusal>
    ensures { AnsweredAt T.width true (operation_code operation) operands.a operands.b (means result) }
{
    match operation {
        Operation::Root => checked_isqrt(cast_signed::<T>(operands.lone()?)).map(in_bits),
        Operation::Log => checked_ilog10(cast_signed::<T>(operands.lone()?)).map(u64::from),
        Operation::Remainder => {
            let (x, divisor) = operands.both()?;
            rem_euclid::<T>(cast_signed(x), cast_signed(divisor)).map(in_bits)
        }
        Operation::NextMultiple => {
            let (x, step) = operands.both()?;
            next_multiple_of::<T>(cast_signed(x), cast_signed(step)).map(in_bits)
        }
        Operation::Gather | Operation::Scatter => Err(Refusal::NoOperation),
    }
}

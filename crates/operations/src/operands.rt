// A record's two words as operands of a type.
ghost use Rattle.operations.specs.Operands.{OperandOf, LoneOperandOf, OperandsOf};

use answers::Refusal;
use widths::Unsigned;

#[derive(Clone, Copy, Debug, PartialEq, Eq)]
pub(crate) struct Operands {
    pub(crate) a: u64,
    pub(crate) b: u64,
}

impl Operands {
    // The operand of an operation that uses a alone: b has to be 0.
    pub(crate) fn lone<T: Unsigned>(self) -> Result<T, Refusal>
        ensures { LoneOperandOf T.number T.width self.a self.b result }
    {
        let x = operand(self.a)?;
        if self.b == 0 {
            Ok(x)
        } else {
            Err(Refusal::BadOperand)
        }
    }

    pub(crate) fn both<T: Unsigned>(self) -> Result<(T, T), Refusal>
        ensures { OperandsOf T.number T.width self.a self.b result }
    {
        Ok((operand(self.a)?, operand(self.b)?))
    }
}

// The value with the number n, which has to have no bits above the type's width.
fn operand<T: Unsigned>(n: u64) -> Result<T, Refusal>
    ensures { OperandOf T.number T.width n result }
{
    let x = T::narrow(n);
    if x.widen() == n {
        Ok(x)
    } else {
        Err(Refusal::BadOperand)
    }
}

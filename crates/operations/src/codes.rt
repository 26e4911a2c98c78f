// The codes of a record: its operations, and the integer types that they work on.
ghost use Rattle.operations.specs.Codes.{OperationOf, KindOf};

use answers::Refusal;

#[derive(Clone, Copy, Debug, PartialEq, Eq)]
pub(crate) enum Operation {
    Root,
    Log,
    Gather,
    Scatter,
    Remainder,
    NextMultiple,
}

impl TryFrom<u8> for Operation {
    type Error = Refusal;

    ghost try_from_gives = { OperationOf };

    fn try_from(code: u8) -> Result<Operation, Refusal> {
        match code {
            0 => Ok(Operation::Root),
            1 => Ok(Operation::Log),
            2 => Ok(Operation::Gather),
            3 => Ok(Operation::Scatter),
            4 => Ok(Operation::Remainder),
            5 => Ok(Operation::NextMultiple),
            _ => Err(Refusal::NoOperation),
        }
    }
}

#[derive(Clone, Copy, Debug, PartialEq, Eq)]
pub(crate) enum Kind {
    U8,
    U16,
    U32,
    U64,
    I8,
    I16,
    I32,
    I64,
}

impl TryFrom<u8> for Kind {
    type Error = Refusal;

    ghost try_from_gives = { KindOf };

    fn try_from(code: u8) -> Result<Kind, Refusal> {
        match code {
            0 => Ok(Kind::U8),
            1 => Ok(Kind::U16),
            2 => Ok(Kind::U32),
            3 => Ok(Kind::U64),
            4 => Ok(Kind::I8),
            5 => Ok(Kind::I16),
            6 => Ok(Kind::I32),
            7 => Ok(Kind::I64),
            _ => Err(Refusal::NoOperation),
        }
    }
}

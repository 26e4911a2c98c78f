// The kinds of calls, by the numbers that entries have for them, and their names.
ghost use Rattle.std.specs.Prelude.{◌≡◌};
ghost use Rattle.edges.specs.Kind.{entry_size, form_number, width_number, kind_number, StandsFor};

use std::fmt;

// The signed forms, in the order of their kinds.
#[derive(Clone, Copy, PartialEq, Eq)]
pub enum Form {
    StrictAdd,
    StrictSub,
    WrappingAdd,
    WrappingSub,
    StrictNeg,
    StrictAbs,
    WrappingNeg,
    UnsignedAbs,
}

// The signed types that the forms are taken at.
#[derive(Clone, Copy, PartialEq, Eq)]
pub enum Width {
    I8,
    I16,
    I32,
    I64,
}

// A kind of call.
#[derive(Clone, Copy, PartialEq, Eq)]
pub enum Kind {
    Signed(Form, Width),
    DigitCount,
    GatherBatch,
    ScatterBatch,
    CardRead,
    CardWrite,
}

// A number that stands for nothing.
#[derive(Clone, Copy)]
pub struct UnknownNumber;

impl TryFrom<u8> for Form {
    type Error = UnknownNumber;

    ghost try_from_gives = { StandsFor form_number 8 };

    fn try_from(number: u8) -> Result<Self, UnknownNumber> {
        match number {
            0 => Ok(Form::StrictAdd),
            1 => Ok(Form::StrictSub),
            2 => Ok(Form::WrappingAdd),
            3 => Ok(Form::WrappingSub),
            4 => Ok(Form::StrictNeg),
            5 => Ok(Form::StrictAbs),
            6 => Ok(Form::WrappingNeg),
            7 => Ok(Form::UnsignedAbs),
            _ => Err(UnknownNumber),
        }
    }
}

impl TryFrom<u8> for Width {
    type Error = UnknownNumber;

    ghost try_from_gives = { StandsFor width_number 4 };

    fn try_from(number: u8) -> Result<Self, UnknownNumber> {
        match number {
            0 => Ok(Width::I8),
            1 => Ok(Width::I16),
            2 => Ok(Width::I32),
            3 => Ok(Width::I64),
            _ => Err(UnknownNumber),
        }
    }
}

impl TryFrom<u8> for Kind {
    type Error = UnknownNumber;

    ghost try_from_gives = { StandsFor kind_number 37 };

    // Each signed form has a kind for each width; the others come after them.
    fn try_from(number: u8) -> Result<Self, UnknownNumber> {
        match number {
            0..=31 => Ok(Kind::Signed(Form::try_from(number / 4)?, Width::try_from(number % 4)?)),
            32 => Ok(Kind::DigitCount),
            33 => Ok(Kind::GatherBatch),
            34 => Ok(Kind::ScatterBatch),
            35 => Ok(Kind::CardRead),
            36 => Ok(Kind::CardWrite),
            _ => Err(UnknownNumber),
        }
    }
}

impl Kind {
    // The number of bytes of the entries of a kind: two, and eight for each word.
    pub fn entry_size(self) -> usize
        ensures { result ≡ entry_size (kind_number self) }
    {
        match self {
            Kind::Signed(_, _) | Kind::DigitCount => 2 + 3 * 8,
            Kind::GatherBatch | Kind::ScatterBatch => 2 + 22 * 8,
            Kind::CardRead => 2 + 5 * 8,
            Kind::CardWrite => 2 + 7 * 8,
        }
    }
}

impl fmt::Display for Form {
    fn fmt<W: fmt::Write>(&self, f: &mut fmt::Formatter<W>) -> fmt::Result {
        f.write_str(match self {
            Form::StrictAdd => "strict_add",
            Form::StrictSub => "strict_sub",
            Form::WrappingAdd => "wrapping_add",
            Form::WrappingSub => "wrapping_sub",
            Form::StrictNeg => "strict_neg",
            Form::StrictAbs => "strict_abs",
            Form::WrappingNeg => "wrapping_neg",
            Form::UnsignedAbs => "unsigned_abs",
        })
    }
}

impl fmt::Display for Width {
    fn fmt<W: fmt::Write>(&self, f: &mut fmt::Formatter<W>) -> fmt::Result {
        f.write_str(match self {
            Width::I8 => "i8",
            Width::I16 => "i16",
            Width::I32 => "i32",
            Width::I64 => "i64",
        })
    }
}

impl fmt::Display for Kind {
    fn fmt<W: fmt::Write>(&self, f: &mut fmt::Formatter<W>) -> fmt::Result {
        match self {
            Kind::Signed(form, width) => write!(f, "{form} {width}"),
            Kind::DigitCount => f.write_str("digit_count"),
            Kind::GatherBatch => f.write_str("gather_batch"),
            Kind::ScatterBatch => f.write_str("scatter_batch"),
            Kind::CardRead => f.write_str("card_read"),
            Kind::CardWrite => f.write_str("card_write"),
        }
    }
}

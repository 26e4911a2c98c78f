// What calls answer: a value, or one of the refusals, which every crate shares; and the two numbers of an answer that a caller in C sees.
#![tactic(auto)]

ghost use Rattle.std.specs.Prelude.{◌≡◌, pos};
ghost use Rattle.answers.specs.Answers.{number_of, means};
ghost use Rattle.answers.specs.Reply.{refusal_of, value_or};

// Why a call is refused, by the refusals' numbers.
#[derive(Clone, Copy, Debug, PartialEq, Eq)]
pub enum Refusal {
    NegativeRoot = 1,
    NoLog = 2,
    DivisorZero = 3,
    NoFit = 4,
    TableTooLong = 5,
    NoSuchCard = 6,
    EmptyMask = 7,
    TooWide = 8,
    Differs = 9,
    NoRoom = 10,
    NoOperation = 11,
    BadOperand = 12,
    WrongLength = 13,
}

impl Refusal {
    // The refusal's number.
    pub fn number(self) -> u8
        ensures { result ≡ number_of self }
    {
        self as u8
    }
}

// A type of numbers, with the 0 that a refused call has for its value. `Default` promises no more than that a value is a default one.
pub trait Number: Copy {
    ghost ZERO: { Self };

    const ZERO: Self;
}

impl Number for u32 {
    ghost ZERO = { 0 };

    const ZERO: u32 = 0;
}

impl Number for u64 {
    ghost ZERO = { 0 };

    const ZERO: u64 = 0;
}

impl Number for i8 {
    ghost ZERO = { pos 0 };

    const ZERO: i8 = 0;
}

impl Number for i16 {
    ghost ZERO = { pos 0 };

    const ZERO: i16 = 0;
}

impl Number for i32 {
    ghost ZERO = { pos 0 };

    const ZERO: i32 = 0;
}

impl Number for i64 {
    ghost ZERO = { pos 0 };

    const ZERO: i64 = 0;
}

// The number of an answer's refusal, or 0.
pub fn refusal_number<T: Drop>(answer: Result<T, Refusal>) -> u8
    ensures { result ≡ refusal_of (means answer) }
{
    match answer {
        Ok(_) => 0,
        Err(why) => why.number(),
    }
}

// The number that an answer gives, or 0.
pub fn value<T: Number>(answer: Result<T, Refusal>) -> T
    ensures { result ≡ value_or T.ZERO (means answer) }
{
    answer.unwrap_or(T::ZERO)
}

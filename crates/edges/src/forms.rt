// The signed forms, on operands and to numbers in two's complement. Each has operands of its own kind, so they are matched.
use crate::kind::{Form, Width};
use answers::Refusal;
use widths::{Signed, Unsigned};

// A form at a type: it takes the low bits of the operands, and gives a number with zeros above.
fn call_at<T: Signed>(form: Form, a: u64, b: u64) -> Result<u64, Refusal> {
    let x: T = int_macros::cast_signed(T::Unsigned::narrow(a));
    let y: T = int_macros::cast_signed(T::Unsigned::narrow(b));
    let z = match form {
        Form::StrictAdd => int_macros::strict_add(x, y)?,
        Form::StrictSub => int_macros::strict_sub(x, y)?,
        Form::WrappingAdd => int_macros::wrapping_add(x, y),
        Form::WrappingSub => int_macros::wrapping_sub(x, y),
        Form::StrictNeg => int_macros::strict_neg(x)?,
        Form::StrictAbs => int_macros::strict_abs(x)?,
        Form::WrappingNeg => int_macros::wrapping_neg(x),
        Form::UnsignedAbs => return Ok(int_macros::unsigned_abs(x).widen()),
    };
    Ok(int_macros::cast_unsigned(z).widen())
}

pub fn call(form: Form, width: Width, a: u64, b: u64) -> Result<u64, Refusal> {
    match width {
        Width::I8 => call_at::<i8>(form, a, b),
        Width::I16 => call_at::<i16>(form, a, b),
        Width::I32 => call_at::<i32>(form, a, b),
        Width::I64 => call_at::<i64>(form, a, b),
    }
}

// Core's signed forms (int_macros.rs), each over every signed type; `a` is the Rust's `self`. A refusal stands in place of each panic.
#![tactic(auto)]

mod casts;
mod least;
mod overflowing;
mod remainders;
mod strict;
mod wrapping;

pub use casts::{cast_signed, cast_unsigned};
pub use overflowing::{overflowing_add, overflowing_neg, overflowing_sub};
pub use remainders::{next_multiple_of, opposite_signs, rem_euclid};
pub use strict::{strict_abs, strict_add, strict_neg, strict_sub};
pub use wrapping::{unsigned_abs, wrapping_abs, wrapping_add, wrapping_neg, wrapping_sub};

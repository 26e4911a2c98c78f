// The exact number, refused where it does not fit; the bodies are the Rust's.
#![tactic(auto, using(crate::proofs::Rules::exact))]

ghost use Rattle.std.specs.Prelude.{◌≡◌, ◌+ℤ◌, ◌-ℤ◌, neg_ℤ};
ghost use Rattle.answers.specs.Answers.{reads};
ghost use Rattle.signed.specs.Signed.{absolute, exact};

use crate::overflowing::{overflowing_add, overflowing_neg, overflowing_sub};
use answers::Refusal;
use widths::Signed;

#[inline]
pub fn strict_add<T: Signed>(a: T, rhs: T) -> Result<T, Refusal>
    ensures { reads T.whole result ≡ exact T.width (T.whole a +ℤ T.whole rhs) }
{
    let (sum, overflowed) = overflowing_add(a, rhs);
    if overflowed {
        Err(Refusal::NoFit)
    } else {
        Ok(sum)
    }
}

#[inline]
pub fn strict_sub<T: Signed>(a: T, rhs: T) -> Result<T, Refusal>
    ensures { reads T.whole result ≡ exact T.width (T.whole a -ℤ T.whole rhs) }
{
    let (difference, overflowed) = overflowing_sub(a, rhs);
    if overflowed {
        Err(Refusal::NoFit)
    } else {
        Ok(difference)
    }
}

#[inline]
pub fn strict_neg<T: Signed>(a: T) -> Result<T, Refusal>
    ensures { reads T.whole result ≡ exact T.width (neg_ℤ (T.whole a)) }
{
    let (negated, overflowed) = overflowing_neg(a);
    if overflowed {
        Err(Refusal::NoFit)
    } else {
        Ok(negated)
    }
}

#[inline]
pub fn strict_abs<T: Signed>(a: T) -> Result<T, Refusal>
    ensures { reads T.whole result ≡ exact T.width (absolute (T.whole a)) }
{
    if a.widen() < 0 { strict_neg(a) } else { Ok(a) }
}

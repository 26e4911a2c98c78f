// The wrapped number, and whether the exact one does not fit: the Rust's pair, and no `Option`, since the number is promised either way.
#![tactic(auto, using(crate::proofs::Rules::exact))]

ghost use Rattle.std.specs.Prelude.{◌+ℤ◌, ◌-ℤ◌, neg_ℤ};
ghost use Rattle.signed.specs.Signed.{Overflows};

use crate::least::least_number;
use crate::wrapping::{wrapping_add, wrapping_neg, wrapping_sub};
use widths::Signed;

// The wrapped sum is the sum unless it lies on the wrong side of a.
#[inline]
pub fn overflowing_add<T: Signed>(a: T, rhs: T) -> (T, bool)
    ensures { Overflows T.width (T.whole a +ℤ T.whole rhs) (T.whole result.0) result.1 }
{
    let sum = wrapping_add(a, rhs);
    (sum, (rhs.widen() < 0) != (sum.widen() < a.widen()))
}

#[inline]
pub fn overflowing_sub<T: Signed>(a: T, rhs: T) -> (T, bool)
    ensures { Overflows T.width (T.whole a -ℤ T.whole rhs) (T.whole result.0) result.1 }
{
    let difference = wrapping_sub(a, rhs);
    (
        difference,
        (0 < rhs.widen()) != (difference.widen() < a.widen()),
    )
}

#[inline]
pub fn overflowing_neg<T: Signed>(a: T) -> (T, bool)
    ensures { Overflows T.width (neg_ℤ (T.whole a)) (T.whole result.0) result.1 }
{
    (wrapping_neg(a), a.widen() == least_number::<T>())
}

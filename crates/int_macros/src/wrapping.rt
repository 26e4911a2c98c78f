// The forms that wrap round the width: the exact number's low bits. Each is worked out in the widest type, which wraps first.
#![tactic(auto, using(crate::proofs::Rules::wrapped))]

ghost use Rattle.std.specs.Prelude.{◌≡◌, ◌+ℤ◌, ◌-ℤ◌, neg_ℤ, unsigned_abs};
ghost use Rattle.signed.specs.Signed.{absolute, wrap};

use widths::{Signed, Unsigned};

#[inline]
pub fn wrapping_add<T: Signed>(a: T, rhs: T) -> T
    ensures { T.whole result ≡ wrap T.width (T.whole a +ℤ T.whole rhs) }
{
    T::narrow(a.widen().wrapping_add(rhs.widen()))
}

#[inline]
pub fn wrapping_sub<T: Signed>(a: T, rhs: T) -> T
    ensures { T.whole result ≡ wrap T.width (T.whole a -ℤ T.whole rhs) }
{
    T::narrow(a.widen().wrapping_sub(rhs.widen()))
}

#[inline]
pub fn wrapping_neg<T: Signed>(a: T) -> T
    ensures { T.whole result ≡ wrap T.width (neg_ℤ (T.whole a)) }
{
    T::narrow(a.widen().wrapping_neg())
}

#[inline]
pub fn wrapping_abs<T: Signed>(a: T) -> T
    ensures { T.whole result ≡ wrap T.width (absolute (T.whole a)) }
{
    if a.widen() < 0 { wrapping_neg(a) } else { a }
}

#[inline]
pub fn unsigned_abs<T: Signed>(a: T) -> T::Unsigned
    ensures { T.Unsigned.number result ≡ unsigned_abs (T.whole a) }
{
    T::Unsigned::narrow(a.widen().unsigned_abs())
}

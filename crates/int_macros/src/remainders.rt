// The Euclidean remainder, and the next multiple.
ghost use Rattle.std.specs.Prelude.{◌≡◌, ◌+ℤ◌, cond, int_rem};
ghost use Rattle.std.specs.Int.{CanDivide};
ghost use Rattle.answers.specs.Answers.{reads};
ghost use Rattle.signed.specs.Signed.{opposite, rem_euclid, next_multiple};

use crate::least::least_number;
use crate::strict::strict_add;
use crate::wrapping::{wrapping_abs, wrapping_add};
use answers::Refusal;
use widths::Signed;

// What `%` gives, where it is defined.
#[inline]
fn remainder<T: Signed>(a: T, rhs: T) -> T
    requires { CanDivide T.width (T.whole a) (T.whole rhs) }
    ensures { T.whole result ≡ int_rem (T.whole a) (T.whole rhs) }
{
    a % rhs
}

// The two refusals are the inputs at which the Rust's `%` panics.
#[tactic(auto, using(crate::proofs::Rules::remainder))]
#[inline]
pub fn rem_euclid<T: Signed>(a: T, rhs: T) -> Result<T, Refusal>
    ensures { reads T.whole result ≡ rem_euclid T.width (T.whole a) (T.whole rhs) }
{
    let (n, d) = (a.widen(), rhs.widen());
    if d == 0 {
        return Err(Refusal::DivisorZero);
    }
    if n == least_number::<T>() && d == -1 {
        return Err(Refusal::NoFit);
    }
    let r = remainder(a, rhs);
    if r.widen() < 0 {
        Ok(wrapping_add(r, wrapping_abs(rhs)))
    } else {
        Ok(r)
    }
}

// Whether one is above 0 and the other below.
#[inline]
pub fn opposite_signs<T: Signed>(a: T, b: T) -> bool
    ensures { result ≡ opposite (T.whole a) (T.whole b) }
{
    let (a, b) = (a.widen(), b.widen());
    (a > 0 && b < 0) || (a < 0 && b > 0)
}

// The remainder with d's sign: r, or d more where their signs differ.
#[inline]
fn signed_remainder(r: i64, d: i64) -> i64
    ensures { result ≡ cond (opposite r d) (r +ℤ d) r }
{
    if opposite_signs(r, d) { r + d } else { r }
}

#[tactic(auto, using(crate::proofs::Rules::multiple))]
#[inline]
pub fn next_multiple_of<T: Signed>(a: T, rhs: T) -> Result<T, Refusal>
    ensures { reads T.whole result ≡ next_multiple T.width (T.whole a) (T.whole rhs) }
{
    // It is `widen` that says that a fits its width.
    let _number = a.widen();
    let d = rhs.widen();
    // a % -1 has no value at MIN.
    if d == -1 {
        return Ok(a);
    }
    if d == 0 {
        return Err(Refusal::DivisorZero);
    }
    let m = signed_remainder(remainder(a, rhs).widen(), d);
    if m == 0 {
        Ok(a)
    } else {
        strict_add(a, T::narrow(d - m))
    }
}

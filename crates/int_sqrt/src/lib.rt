// The integer square root by Zimmermann's Karatsuba method, after Rust's core (library/core/src/num/imp/int_sqrt.rs): the root of the top
// byte from a table, then of twice as many bits at each stage.
#![tactic(auto)]

mod stages;
mod tables;

ghost use Rattle.std.specs.Prelude.{◌≡◌};
ghost use Rattle.answers.specs.Answers.{means, reads};
ghost use Rattle.int_sqrt.specs.Root.{root, root_of, root_check};

use answers::Refusal;
use stages::isqrt_u64;
use widths::{Signed, Unsigned};

// The root of n, at any unsigned type.
#[tactic(auto, using(crate::proofs::Root::root_mod))]
pub fn isqrt<T: Unsigned>(n: T) -> T
    ensures { T.number result ≡ root (T.number n) }
{
    T::narrow(isqrt_u64(n.widen()))
}

// Whether a signed number, of this width or a narrower one, has a root: the refusal without the root.
pub fn root_check(n: i64) -> Result<(), Refusal>
    ensures { means result ≡ root_check n }
{
    if n < 0 {
        Err(Refusal::NegativeRoot)
    } else {
        Ok(())
    }
}

// The root of n, at any signed type; refused below 0.
pub fn checked_isqrt<T: Signed>(n: T) -> Result<T, Refusal>
    ensures { reads T.whole result ≡ root_of (T.whole n) }
{
    let n = n.widen();
    root_check(n)?;
    let result = T::narrow(isqrt_u64(n as u64) as i64);
    Ok(result)
}

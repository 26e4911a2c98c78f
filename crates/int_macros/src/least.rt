// The least number of a type.
ghost use Rattle.std.specs.Prelude.{◌≡◌};
ghost use Rattle.signed.specs.Signed.{min_z};

use widths::{Signed, Unsigned};

// The Rust's MIN, in the widest type: half the unsigned MAX is MAX, and its bits flipped are MIN's.
#[inline]
pub fn least_number<T: Signed>() -> i64
    ensures { result ≡ min_z T.width }
{
    !(T::Unsigned::narrow(u64::MAX).widen() / 2).cast_signed()
}

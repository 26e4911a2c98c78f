// A number's two's complement bits, and the number of bits.
ghost use Rattle.std.specs.Prelude.{◌≡◌};
ghost use Rattle.std.proofs.Common.{of_z, to_z};

use widths::{Signed, Unsigned};

// The two's complement bits of a.
#[inline]
pub fn cast_unsigned<T: Signed>(a: T) -> T::Unsigned
    ensures { T.Unsigned.number result ≡ of_z T.width (T.whole a) }
{
    T::Unsigned::narrow(a.widen().cast_unsigned())
}

// The number whose two's complement bits are n.
#[inline]
pub fn cast_signed<T: Signed>(n: T::Unsigned) -> T
    ensures { T.whole result ≡ to_z T.width (T.Unsigned.number n) }
{
    T::narrow(n.widen().cast_signed())
}

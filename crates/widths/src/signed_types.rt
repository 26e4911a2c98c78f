// The signed types of 8 to 64 bits, in two's complement.
ghost use Rattle.std.specs.Prelude.{◌≡◌, ◌≤◌, FitsSigned, int_rem, refl};
ghost use Rattle.std.specs.Int.{w8, w16, w32, w64, CanDivide};
ghost use Rattle.std.proofs.Common.{lit≤};
ghost use mir.Val.{bits};
ghost use Rattle.signed.specs.Signed.{wrap};

use crate::integers::Integer;
use crate::unsigned_types::Unsigned;
use std::ops::Rem;

pub trait Signed: Integer + Rem<Output = Self> {
    // The unsigned type of the same width.
    type Unsigned: Unsigned;

    // The number in the widest type.
    fn widen(self) -> i64
        ensures same { result ≡ Self.whole self }
        ensures range { FitsSigned Self.width (Self.whole self) };

    // A number of the widest type, wrapped.
    fn narrow(z: i64) -> Self
        ensures { Self.whole result ≡ wrap Self.width z };

    ghost unsigned_width: { Self.Unsigned.width ≡ Self.width };

    // Every number of the type is one of the widest.
    ghost at_most_64: { bits Self.width ≤ 64 };

    // Where `%` may be used, and what it gives.
    ghost can_rem_law: { (a b : Self) → CanDivide Self.width (Self.whole a) (Self.whole b) → Self.Rem.can_rem a b };

    ghost rem_law: { (a b r : Self) → Self.Rem.rem_gives a b r → Self.whole r ≡ int_rem (Self.whole a) (Self.whole b) };
}

impl Integer for i8 {
    ghost width = { w8 };

    ghost whole = { λ z. z };
}

impl Signed for i8 {
    type Unsigned = u8;

    fn widen(self) -> i64 {
        self as i64
    }

    fn narrow(z: i64) -> i8 {
        ((z.cast_unsigned() % (1 << 8)) as u8).cast_signed()
    }

    ghost unsigned_width = { refl };

    ghost at_most_64 = { lit≤ tt };

    ghost can_rem_law = { λ a b h. h };

    ghost rem_law = { λ a b r e. e };
}

impl Integer for i16 {
    ghost width = { w16 };

    ghost whole = { λ z. z };
}

impl Signed for i16 {
    type Unsigned = u16;

    fn widen(self) -> i64 {
        self as i64
    }

    fn narrow(z: i64) -> i16 {
        ((z.cast_unsigned() % (1 << 16)) as u16).cast_signed()
    }

    ghost unsigned_width = { refl };

    ghost at_most_64 = { lit≤ tt };

    ghost can_rem_law = { λ a b h. h };

    ghost rem_law = { λ a b r e. e };
}

impl Integer for i32 {
    ghost width = { w32 };

    ghost whole = { λ z. z };
}

impl Signed for i32 {
    type Unsigned = u32;

    fn widen(self) -> i64 {
        self as i64
    }

    fn narrow(z: i64) -> i32 {
        ((z.cast_unsigned() % (1 << 32)) as u32).cast_signed()
    }

    ghost unsigned_width = { refl };

    ghost at_most_64 = { lit≤ tt };

    ghost can_rem_law = { λ a b h. h };

    ghost rem_law = { λ a b r e. e };
}

impl Integer for i64 {
    ghost width = { w64 };

    ghost whole = { λ z. z };
}

impl Signed for i64 {
    type Unsigned = u64;

    fn widen(self) -> i64 {
        self
    }

    fn narrow(z: i64) -> i64 {
        z
    }

    ghost unsigned_width = { refl };

    ghost at_most_64 = { lit≤ tt };

    ghost can_rem_law = { λ a b h. h };

    ghost rem_law = { λ a b r e. e };
}

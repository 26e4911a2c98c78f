// The unsigned types of 8 to 64 bits.
ghost use Rattle.std.specs.Prelude.{◌≡◌, ◌%◌, ◌^◌, ◌<◌, ℕ, pos, refl};
ghost use Rattle.std.specs.Int.{w8, w16, w32, w64};
ghost use mir.Val.{bits};

use crate::integers::Integer;

pub trait Unsigned: Integer {
    // The number that a value is, which is also its bits.
    ghost number: { Self → ℕ };

    // The number in the widest type.
    fn widen(self) -> u64
        ensures same { result ≡ number self }
        ensures range { number self < 2 ^ bits Self.width };

    // The low bits of a number of the widest type.
    fn narrow(n: u64) -> Self
        ensures { number result ≡ n % 2 ^ bits Self.width };

    ghost number_law: { (x : Self) → Self.whole x ≡ pos (number x) };
}

impl Integer for u8 {
    ghost width = { w8 };

    ghost whole = { λ n. pos n };
}

impl Unsigned for u8 {
    ghost number = { λ n. n };

    fn widen(self) -> u64 {
        self as u64
    }

    fn narrow(n: u64) -> u8 {
        (n % (1 << 8)) as u8
    }

    ghost number_law = { λ n. refl };
}

impl Integer for u16 {
    ghost width = { w16 };

    ghost whole = { λ n. pos n };
}

impl Unsigned for u16 {
    ghost number = { λ n. n };

    fn widen(self) -> u64 {
        self as u64
    }

    fn narrow(n: u64) -> u16 {
        (n % (1 << 16)) as u16
    }

    ghost number_law = { λ n. refl };
}

impl Integer for u32 {
    ghost width = { w32 };

    ghost whole = { λ n. pos n };
}

impl Unsigned for u32 {
    ghost number = { λ n. n };

    fn widen(self) -> u64 {
        self as u64
    }

    fn narrow(n: u64) -> u32 {
        (n % (1 << 32)) as u32
    }

    ghost number_law = { λ n. refl };
}

impl Integer for u64 {
    ghost width = { w64 };

    ghost whole = { λ n. pos n };
}

impl Unsigned for u64 {
    ghost number = { λ n. n };

    fn widen(self) -> u64 {
        self
    }

    fn narrow(n: u64) -> u64 {
        n
    }

    ghost number_law = { λ n. refl };
}

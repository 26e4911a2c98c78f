// The unsigned types as words of bits.
ghost use Rattle.std.specs.Prelude.{◌≡◌, ◌*◌, ◌/◌, ◌%◌, ◌^◌, ◌<◌, ℕ, refl};
ghost use Rattle.std.specs.Int.Bits.{bit_and, bit_xor};
ghost use Rattle.std.specs.Mem.{type_size};
ghost use Rattle.std.proofs.Common.{lit<, lit≤};
ghost use Rattle.int_bits.specs.Stages.{Width, flip};
ghost use mir.Val.{bits};

use std::ops::{BitAnd, BitXor, Not, Shl, Shr};
use widths::Unsigned;

// A word whose bits move in `STAGES` stages.
pub trait Word<const STAGES: usize>: Unsigned
    + BitAnd<Output = Self>
    + BitXor<Output = Self>
    + Not<Output = Self>
    + Shl<u32, Output = Self>
    + Shr<u32, Output = Self> {
    // A stage for each power of 2 below the width.
    ghost stages_law: { Width (bits Self.width) STAGES };

    // The masks of all stages fit in memory.
    ghost size_law: { STAGES * type_size Self.row < 2 ^ 63 };

    // The operators are total, but for a shift by the width or more.
    ghost can_law: { (a b : Self) → Self.BitAnd.can_bitand a b × Self.BitXor.can_bitxor a b };

    ghost can_not_law: { (a : Self) → Self.Not.can_not a };

    ghost can_shift_law: { (a : Self) (k : ℕ) → k < bits Self.width → Self.Shl.can_shl a k × Self.Shr.can_shr a k };

    // What they give, as numbers.
    ghost and_law: { (a b r : Self) → Self.BitAnd.bitand_gives a b r
        → Self.number r ≡ bit_and (Self.number a) (Self.number b) };

    ghost xor_law: { (a b r : Self) → Self.BitXor.bitxor_gives a b r
        → Self.number r ≡ bit_xor (Self.number a) (Self.number b) };

    ghost not_law: { (a r : Self) → Self.Not.not_gives a r → Self.number r ≡ flip (bits Self.width) (Self.number a) };

    ghost shl_law: { (a r : Self) (k : ℕ) → Self.Shl.shl_gives a k r
        → Self.number r ≡ (Self.number a * 2 ^ k) % 2 ^ bits Self.width };

    ghost shr_law: { (a r : Self) (k : ℕ) → Self.Shr.shr_gives a k r → Self.number r ≡ Self.number a / 2 ^ k };
}

impl Word<3> for u8 {
    ghost stages_law = { record { power = refl; small = lit≤ tt } };

    ghost size_law = { lit< tt };

    ghost can_law = { λ a b. (tt, tt) };

    ghost can_not_law = { λ a. tt };

    ghost can_shift_law = { λ a k h. (h, h) };

    ghost and_law = { λ a b r e. e };

    ghost xor_law = { λ a b r e. e };

    ghost not_law = { λ a r e. e };

    ghost shl_law = { λ a r k e. e };

    ghost shr_law = { λ a r k e. e };
}

impl Word<4> for u16 {
    ghost stages_law = { record { power = refl; small = lit≤ tt } };

    ghost size_law = { lit< tt };

    ghost can_law = { λ a b. (tt, tt) };

    ghost can_not_law = { λ a. tt };

    ghost can_shift_law = { λ a k h. (h, h) };

    ghost and_law = { λ a b r e. e };

    ghost xor_law = { λ a b r e. e };

    ghost not_law = { λ a r e. e };

    ghost shl_law = { λ a r k e. e };

    ghost shr_law = { λ a r k e. e };
}

impl Word<5> for u32 {
    ghost stages_law = { record { power = refl; small = lit≤ tt } };

    ghost size_law = { lit< tt };

    ghost can_law = { λ a b. (tt, tt) };

    ghost can_not_law = { λ a. tt };

    ghost can_shift_law = { λ a k h. (h, h) };

    ghost and_law = { λ a b r e. e };

    ghost xor_law = { λ a b r e. e };

    ghost not_law = { λ a r e. e };

    ghost shl_law = { λ a r k e. e };

    ghost shr_law = { λ a r k e. e };
}

impl Word<6> for u64 {
    ghost stages_law = { record { power = refl; small = lit≤ tt } };

    ghost size_law = { lit< tt };

    ghost can_law = { λ a b. (tt, tt) };

    ghost can_not_law = { λ a. tt };

    ghost can_shift_law = { λ a k h. (h, h) };

    ghost and_law = { λ a b r e. e };

    ghost xor_law = { λ a b r e. e };

    ghost not_law = { λ a r e. e };

    ghost shl_law = { λ a r k e. e };

    ghost shr_law = { λ a r k e. e };
}

// The root by stages: that of the top byte from the table, then those of words of 16, 32 and 64 bits, each from its upper half's.
ghost use Rattle.std.specs.Prelude.{◌≡◌, ℕ, ◌+◌, ◌*◌, ◌/◌, ◌^◌, ◌<◌, ◌≤◌};
ghost use Rattle.int_sqrt.specs.Root.{Root, root};
ghost use Rattle.int_sqrt.specs.Word.{IsWord, IsNormalized};

use crate::tables;
use std::marker::Model;

// Keeps the normalising shift even, so that half of it takes the root back.
const EVEN_MAKING_BITMASK: u32 = !1;

// A number's root s and what is left of it beyond s * s. Contracts see the number.
#[derive(Drop)]
struct WithRemainder {
    s: u64,
    r: u64,
}

impl Model for WithRemainder {
    ghost Value = { ℕ };

    ghost view = { λ a. a.s * a.s + a.r };

    ghost invariant = { λ a. a.r ≤ 2 * a.s };
}

// The root and remainder of the top byte.
fn first_stage(n: u8) -> WithRemainder
    ensures { result ≡ n }
{
    let (s, r) = tables::U8_ISQRT_WITH_REMAINDER[n as usize];
    WithRemainder {
        s: s as u64,
        r: r as u64,
    }
}

// A word of BITS bits with a one among its two top bits.
#[derive(Drop)]
struct Normalized<const BITS: u32> {
    n: u64,
    ghost normalized: { IsNormalized BITS n },
}

impl<const BITS: u32> Normalized<BITS> {
    // The root and remainder of the word, from those of its upper half. The difference may borrow and wrap: then s is one too high, and
    // the repair, which wraps back, gives the exact remainder of s - 1.
    #[tactic(auto, using(crate::proofs::Stage::stage))]
    fn middle_stage(&self, upper: WithRemainder) -> WithRemainder
        requires { upper ≡ self.now.n / 2 ^ (BITS / 2) }
        ensures { result ≡ self.now.n }
    {
        let half_bits = BITS >> 1;
        let quarter_bits = BITS >> 2;

        let lo = self.n & ((1 << half_bits) - 1);
        let numerator = (upper.r << quarter_bits) | (lo >> quarter_bits);
        let denominator = upper.s << 1;
        let q = numerator / denominator;
        let u = numerator % denominator;

        let mut s = (upper.s << quarter_bits) + q;
        let rest = (u << quarter_bits) | (lo & ((1 << quarter_bits) - 1));
        let (mut r, overflow) = rest.overflowing_sub(q * q);
        if overflow {
            (s, r) = (s - 1, r.wrapping_add(2 * s - 1));
        }
        WithRemainder { s, r }
    }

    // The root of the word, from the root and remainder of its upper half. The only square that overflows is that of 2^32 in 64 bits, and
    // it is too high.
    fn last_stage(&self, upper: WithRemainder) -> u64
        requires { upper ≡ self.now.n / 2 ^ (BITS / 2) }
        ensures { Root self.now.n result }
    {
        let half_bits = BITS >> 1;
        let quarter_bits = BITS >> 2;

        let lo = self.n & ((1 << half_bits) - 1);
        let numerator = (upper.r << quarter_bits) | (lo >> quarter_bits);
        let denominator = upper.s << 1;

        let q = numerator / denominator;
        let mut s = (upper.s << quarter_bits) + q;
        let (s_squared, overflow) = s.overflowing_mul(s);
        if overflow || s_squared > self.n {
            s -= 1;
        }
        s
    }
}

// The stages that a word of BITS bits goes through, from its top byte down; a trait on the word itself would need a ghost member for it.
trait Stages<const BITS: u32> {
    // The root of a normalised word.
    fn stages(n: &Normalized<BITS>) -> u64
        ensures { Root n.now.n result };
}

impl Stages<16> for u16 {
    fn stages(n: &Normalized<16>) -> u64 {
        let upper = first_stage((n.n >> 8) as u8);
        n.last_stage(upper)
    }
}

impl Stages<32> for u32 {
    fn stages(n: &Normalized<32>) -> u64 {
        let upper = first_stage((n.n >> 24) as u8);
        let upper = Normalized::<16> { n: n.n >> 16 }.middle_stage(upper);
        n.last_stage(upper)
    }
}

impl Stages<64> for u64 {
    fn stages(n: &Normalized<64>) -> u64 {
        let upper = first_stage((n.n >> 56) as u8);
        let upper = Normalized::<16> { n: n.n >> 48 }.middle_stage(upper);
        let upper = Normalized::<32> { n: n.n >> 32 }.middle_stage(upper);
        n.last_stage(upper)
    }
}

// The root of an n of at most BITS bits: that of n shifted up to the top of the word, shifted back by half as much.
#[tactic(auto, using(crate::proofs::Shift::normal))]
fn by_stages<W: Stages<BITS>, const BITS: u32>(n: u64) -> u64
    requires word { IsWord BITS }
    requires positive { 0 < n }
    requires fits { n < 2 ^ BITS }
    ensures { result ≡ root n }
{
    let normalization_shift = (n.leading_zeros() - (64 - BITS)) & EVEN_MAKING_BITMASK;
    let normalized = Normalized {
        n: n << normalization_shift,
    };

    let s = W::stages(&normalized);

    let denormalization_shift = normalization_shift >> 1;
    s >> denormalization_shift
}

// The root of a number above 0 by the stages of the narrowest word that holds it. Never inlined, so that `isqrt_u64` can be.
#[inline(never)]
fn by_word(n: u64) -> u64
    requires { 0 < n }
    ensures { result ≡ root n }
{
    if n <= u16::MAX as u64 {
        by_stages::<u16, 16>(n)
    } else if n <= u32::MAX as u64 {
        by_stages::<u32, 32>(n)
    } else {
        by_stages::<u64, 64>(n)
    }
}

// The root of a number of the widest type, by the table or by the stages. Inlined, since reading the table is less than a call.
#[inline]
pub(super) fn isqrt_u64(n: u64) -> u64
    ensures { result ≡ root n }
{
    if n <= u8::MAX as u64 {
        tables::U8_ISQRT_WITH_REMAINDER[n as usize].0 as u64
    } else {
        by_word(n)
    }
}

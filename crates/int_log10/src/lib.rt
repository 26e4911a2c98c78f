// Integer decimal logarithms, after Rust's core (library/core/src/num/imp/int_log10.rs), and the digit count.
// The log of v > 0 is the k with 10^k <= v < 10^(k+1); a number that is not above 0 has none and is refused.
// The functions of each width take the bare number: a type for one above 0 would be made anew after each division.
#![tactic(auto)]

ghost use Rattle.std.specs.Prelude.{◌≡◌, ◌<◌, IfSome, IfNone};
ghost use Rattle.answers.specs.Answers.{means};
ghost use Rattle.answers.specs.Reply.{gives, refused};
ghost use Rattle.int_log10.specs.Log.{log, log_of, digit_count};

use answers::Refusal;
use widths::Integer;

// For better performance, avoid branches by assembling the solution
// in the bits above the low 8 bits.

// Adding U8_C1 to val gives 10 in the top bits for val < 10, 11 for val >= 10
const U8_C1: u32 = 0b11_00000000 - 10; // 758
// Adding U8_C2 to val gives 01 in the top bits for val < 100, 10 for val >= 100
const U8_C2: u32 = 0b10_00000000 - 100; // 412

// 0 < val <= u8::MAX
#[tactic(auto, using(crate::proofs::Sums::two_sums))]
fn u8_impl(val: u8) -> u32
    requires { 0 < val }
    ensures { result ≡ log val }
{
    let val = val as u32;

    // Value of top bits:
    //            +c1  +c2  1&2
    //     0..=9   10   01   00 = 0
    //   10..=99   11   01   01 = 1
    // 100..=255   11   10   10 = 2
    ((val + U8_C1) & (val + U8_C2)) >> 8
}

// Similar to u8, when adding one of these constants to val,
// we get two possible bit patterns above the low 17 bits,
// depending on whether val is below or above the threshold.
const C1: u32 = 0b011_00000000000000000 - 10; // 393206

const C2: u32 = 0b100_00000000000000000 - 100; // 524188

const C3: u32 = 0b111_00000000000000000 - 1000; // 916504

const C4: u32 = 0b100_00000000000000000 - 10000; // 514288

// 0 < val < 100_000
#[tactic(auto, using(crate::proofs::Sums::four_sums))]
fn less_than_5(val: u32) -> u32
    requires { (0 < val) × (val < 100_000) }
    ensures { result ≡ log val }
{
    // Value of top bits:
    //                +c1  +c2  1&2  +c3  +c4  3&4   ^
    //         0..=9  010  011  010  110  011  010  000 = 0
    //       10..=99  011  011  011  110  011  010  001 = 1
    //     100..=999  011  100  000  110  011  010  010 = 2
    //   1000..=9999  011  100  000  111  011  011  011 = 3
    // 10000..=99999  011  100  000  111  100  100  100 = 4
    (((val + C1) & (val + C2)) ^ ((val + C3) & (val + C4))) >> 17
}

// 0 < val <= u16::MAX
fn u16_impl(val: u16) -> u32
    requires { 0 < val }
    ensures { result ≡ log val }
{
    less_than_5(val as u32)
}

// 0 < val <= u32::MAX
#[tactic(auto, using(crate::proofs::Steps::step_five, crate::proofs::Steps::five_digits))]
fn u32_impl(mut val: u32) -> u32
    requires { 0 < val }
    ensures { result ≡ log val }
{
    let mut log = 0;
    if val >= 100_000 {
        val /= 100_000;
        log += 5;
    }
    log + less_than_5(val)
}

// 0 < val <= u64::MAX
#[tactic(auto, using(crate::proofs::Steps::step_five, crate::proofs::Steps::step_ten, crate::proofs::Steps::five_digits))]
fn u64_impl(mut val: u64) -> u32
    requires { 0 < val }
    ensures { result ≡ log val }
{
    let mut log = 0;
    if val >= 10_000_000_000 {
        val /= 10_000_000_000;
        log += 10;
    }
    if val >= 100_000 {
        val /= 100_000;
        log += 5;
    }
    log + less_than_5(val as u32)
}

// What each type brings: the algorithm of its width. A signed number above 0 is cast, which loses nothing.
pub trait Log10: Integer {
    // The log of a number above 0; any other has none.
    fn checked_ilog10(self) -> Option<u32>
        ensures above { IfSome result (λ k. log_of (Self.whole self) ≡ gives k) }
        ensures not_above { IfNone result (log_of (Self.whole self) ≡ refused 2) };
}

impl Log10 for u8 {
    fn checked_ilog10(self) -> Option<u32> {
        (self > 0).then(|| u8_impl(self))
    }
}

impl Log10 for u16 {
    fn checked_ilog10(self) -> Option<u32> {
        (self > 0).then(|| u16_impl(self))
    }
}

impl Log10 for u32 {
    fn checked_ilog10(self) -> Option<u32> {
        (self > 0).then(|| u32_impl(self))
    }
}

impl Log10 for u64 {
    fn checked_ilog10(self) -> Option<u32> {
        (self > 0).then(|| u64_impl(self))
    }
}

impl Log10 for i8 {
    fn checked_ilog10(self) -> Option<u32> {
        (self > 0).then(|| u8_impl(self as u8))
    }
}

impl Log10 for i16 {
    fn checked_ilog10(self) -> Option<u32> {
        (self > 0).then(|| u16_impl(self as u16))
    }
}

impl Log10 for i32 {
    fn checked_ilog10(self) -> Option<u32> {
        (self > 0).then(|| u32_impl(self as u32))
    }
}

impl Log10 for i64 {
    fn checked_ilog10(self) -> Option<u32> {
        (self > 0).then(|| u64_impl(self as u64))
    }
}

// The log at every type. The Rust takes a `NonZero` or gives an `Option`; here a number that is not above 0 gets a refusal.
pub fn checked_ilog10<T: Log10>(val: T) -> Result<u32, Refusal>
    ensures { means result ≡ log_of (T.whole val) }
{
    val.checked_ilog10().ok_or(Refusal::NoLog)
}

// How many decimal digits v has: its log plus one.
#[tactic(auto, using(crate::proofs::Steps::twenty_digits), unfolding(crate::specs::Log::digit_count))]
pub fn digit_count(v: u64) -> Result<u32, Refusal>
    ensures { means result ≡ digit_count v }
{
    Ok(checked_ilog10(v)? + 1)
}

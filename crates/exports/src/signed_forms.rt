// The signed forms as C functions.
ghost use Rattle.std.specs.Prelude.{◌≡◌, ◌+ℤ◌, ◌-ℤ◌, neg_ℤ, nat_abs};
ghost use Rattle.std.specs.Int.{w8, w16, w32, w64};
ghost use Rattle.answers.specs.Reply.{refusal_of, whole};
ghost use Rattle.signed.specs.Signed.{absolute, exact, wrap, rem_euclid, next_multiple};

#[unsafe(no_mangle)]
pub extern "C" fn ply_strict_add_i8_refusal(a: i8, b: i8) -> u8
    ensures { result ≡ refusal_of (exact w8 (a +ℤ b)) }
{
    answers::refusal_number(int_macros::strict_add::<i8>(a, b))
}

#[unsafe(no_mangle)]
pub extern "C" fn ply_strict_add_i8_value(a: i8, b: i8) -> i8
    ensures { result ≡ whole (exact w8 (a +ℤ b)) }
{
    answers::value(int_macros::strict_add::<i8>(a, b))
}

#[unsafe(no_mangle)]
pub extern "C" fn ply_strict_sub_i8_refusal(a: i8, b: i8) -> u8
    ensures { result ≡ refusal_of (exact w8 (a -ℤ b)) }
{
    answers::refusal_number(int_macros::strict_sub::<i8>(a, b))
}

#[unsafe(no_mangle)]
pub extern "C" fn ply_strict_sub_i8_value(a: i8, b: i8) -> i8
    ensures { result ≡ whole (exact w8 (a -ℤ b)) }
{
    answers::value(int_macros::strict_sub::<i8>(a, b))
}

#[unsafe(no_mangle)]
pub extern "C" fn ply_strict_neg_i8_refusal(a: i8) -> u8
    ensures { result ≡ refusal_of (exact w8 (neg_ℤ a)) }
{
    answers::refusal_number(int_macros::strict_neg::<i8>(a))
}

#[unsafe(no_mangle)]
pub extern "C" fn ply_strict_neg_i8_value(a: i8) -> i8
    ensures { result ≡ whole (exact w8 (neg_ℤ a)) }
{
    answers::value(int_macros::strict_neg::<i8>(a))
}

#[unsafe(no_mangle)]
pub extern "C" fn ply_strict_abs_i8_refusal(a: i8) -> u8
    ensures { result ≡ refusal_of (exact w8 (absolute a)) }
{
    answers::refusal_number(int_macros::strict_abs::<i8>(a))
}

#[unsafe(no_mangle)]
pub extern "C" fn ply_strict_abs_i8_value(a: i8) -> i8
    ensures { result ≡ whole (exact w8 (absolute a)) }
{
    answers::value(int_macros::strict_abs::<i8>(a))
}

#[unsafe(no_mangle)]
pub extern "C" fn ply_wrapping_add_i8(a: i8, b: i8) -> i8
    ensures { result ≡ wrap w8 (a +ℤ b) }
{
    int_macros::wrapping_add::<i8>(a, b)
}

#[unsafe(no_mangle)]
pub extern "C" fn ply_wrapping_sub_i8(a: i8, b: i8) -> i8
    ensures { result ≡ wrap w8 (a -ℤ b) }
{
    int_macros::wrapping_sub::<i8>(a, b)
}

#[unsafe(no_mangle)]
pub extern "C" fn ply_wrapping_neg_i8(a: i8) -> i8
    ensures { result ≡ wrap w8 (neg_ℤ a) }
{
    int_macros::wrapping_neg::<i8>(a)
}

#[unsafe(no_mangle)]
pub extern "C" fn ply_unsigned_abs_i8(a: i8) -> u8
    ensures { result ≡ nat_abs a }
{
    int_macros::unsigned_abs::<i8>(a)
}

#[unsafe(no_mangle)]
pub extern "C" fn ply_rem_euclid_i8_refusal(a: i8, d: i8) -> u8
    ensures { result ≡ refusal_of (rem_euclid w8 a d) }
{
    answers::refusal_number(int_macros::rem_euclid::<i8>(a, d))
}

#[unsafe(no_mangle)]
pub extern "C" fn ply_rem_euclid_i8_value(a: i8, d: i8) -> i8
    ensures { result ≡ whole (rem_euclid w8 a d) }
{
    answers::value(int_macros::rem_euclid::<i8>(a, d))
}

#[unsafe(no_mangle)]
pub extern "C" fn ply_next_multiple_of_i8_refusal(a: i8, d: i8) -> u8
    ensures { result ≡ refusal_of (next_multiple w8 a d) }
{
    answers::refusal_number(int_macros::next_multiple_of::<i8>(a, d))
}

#[unsafe(no_mangle)]
pub extern "C" fn ply_next_multiple_of_i8_value(a: i8, d: i8) -> i8
    ensures { result ≡ whole (next_multiple w8 a d) }
{
    answers::value(int_macros::next_multiple_of::<i8>(a, d))
}

#[unsafe(no_mangle)]
pub extern "C" fn ply_strict_add_i16_refusal(a: i16, b: i16) -> u8
    ensures { result ≡ refusal_of (exact w16 (a +ℤ b)) }
{
    answers::refusal_number(int_macros::strict_add::<i16>(a, b))
}

#[unsafe(no_mangle)]
pub extern "C" fn ply_strict_add_i16_value(a: i16, b: i16) -> i16
    ensures { result ≡ whole (exact w16 (a +ℤ b)) }
{
    answers::value(int_macros::strict_add::<i16>(a, b))
}

#[unsafe(no_mangle)]
pub extern "C" fn ply_strict_sub_i16_refusal(a: i16, b: i16) -> u8
    ensures { result ≡ refusal_of (exact w16 (a -ℤ b)) }
{
    answers::refusal_number(int_macros::strict_sub::<i16>(a, b))
}

#[unsafe(no_mangle)]
pub extern "C" fn ply_strict_sub_i16_value(a: i16, b: i16) -> i16
    ensures { result ≡ whole (exact w16 (a -ℤ b)) }
{
    answers::value(int_macros::strict_sub::<i16>(a, b))
}

#[unsafe(no_mangle)]
pub extern "C" fn ply_strict_neg_i16_refusal(a: i16) -> u8
    ensures { result ≡ refusal_of (exact w16 (neg_ℤ a)) }
{
    answers::refusal_number(int_macros::strict_neg::<i16>(a))
}

#[unsafe(no_mangle)]
pub extern "C" fn ply_strict_neg_i16_value(a: i16) -> i16
    ensures { result ≡ whole (exact w16 (neg_ℤ a)) }
{
    answers::value(int_macros::strict_neg::<i16>(a))
}

#[unsafe(no_mangle)]
pub extern "C" fn ply_strict_abs_i16_refusal(a: i16) -> u8
    ensures { result ≡ refusal_of (exact w16 (absolute a)) }
{
    answers::refusal_number(int_macros::strict_abs::<i16>(a))
}

#[unsafe(no_mangle)]
pub extern "C" fn ply_strict_abs_i16_value(a: i16) -> i16
    ensures { result ≡ whole (exact w16 (absolute a)) }
{
    answers::value(int_macros::strict_abs::<i16>(a))
}

#[unsafe(no_mangle)]
pub extern "C" fn ply_wrapping_add_i16(a: i16, b: i16) -> i16
    ensures { result ≡ wrap w16 (a +ℤ b) }
{
    int_macros::wrapping_add::<i16>(a, b)
}

#[unsafe(no_mangle)]
pub extern "C" fn ply_wrapping_sub_i16(a: i16, b: i16) -> i16
    ensures { result ≡ wrap w16 (a -ℤ b) }
{
    int_macros::wrapping_sub::<i16>(a, b)
}

#[unsafe(no_mangle)]
pub extern "C" fn ply_wrapping_neg_i16(a: i16) -> i16
    ensures { result ≡ wrap w16 (neg_ℤ a) }
{
    int_macros::wrapping_neg::<i16>(a)
}

#[unsafe(no_mangle)]
pub extern "C" fn ply_unsigned_abs_i16(a: i16) -> u16
    ensures { result ≡ nat_abs a }
{
    int_macros::unsigned_abs::<i16>(a)
}

#[unsafe(no_mangle)]
pub extern "C" fn ply_rem_euclid_i16_refusal(a: i16, d: i16) -> u8
    ensures { result ≡ refusal_of (rem_euclid w16 a d) }
{
    answers::refusal_number(int_macros::rem_euclid::<i16>(a, d))
}

#[unsafe(no_mangle)]
pub extern "C" fn ply_rem_euclid_i16_value(a: i16, d: i16) -> i16
    ensures { result ≡ whole (rem_euclid w16 a d) }
{
    answers::value(int_macros::rem_euclid::<i16>(a, d))
}

#[unsafe(no_mangle)]
pub extern "C" fn ply_next_multiple_of_i16_refusal(a: i16, d: i16) -> u8
    ensures { result ≡ refusal_of (next_multiple w16 a d) }
{
    answers::refusal_number(int_macros::next_multiple_of::<i16>(a, d))
}

#[unsafe(no_mangle)]
pub extern "C" fn ply_next_multiple_of_i16_value(a: i16, d: i16) -> i16
    ensures { result ≡ whole (next_multiple w16 a d) }
{
    answers::value(int_macros::next_multiple_of::<i16>(a, d))
}

#[unsafe(no_mangle)]
pub extern "C" fn ply_strict_add_i32_refusal(a: i32, b: i32) -> u8
    ensures { result ≡ refusal_of (exact w32 (a +ℤ b)) }
{
    answers::refusal_number(int_macros::strict_add::<i32>(a, b))
}

#[unsafe(no_mangle)]
pub extern "C" fn ply_strict_add_i32_value(a: i32, b: i32) -> i32
    ensures { result ≡ whole (exact w32 (a +ℤ b)) }
{
    answers::value(int_macros::strict_add::<i32>(a, b))
}

#[unsafe(no_mangle)]
pub extern "C" fn ply_strict_sub_i32_refusal(a: i32, b: i32) -> u8
    ensures { result ≡ refusal_of (exact w32 (a -ℤ b)) }
{
    answers::refusal_number(int_macros::strict_sub::<i32>(a, b))
}

#[unsafe(no_mangle)]
pub extern "C" fn ply_strict_sub_i32_value(a: i32, b: i32) -> i32
    ensures { result ≡ whole (exact w32 (a -ℤ b)) }
{
    answers::value(int_macros::strict_sub::<i32>(a, b))
}

#[unsafe(no_mangle)]
pub extern "C" fn ply_strict_neg_i32_refusal(a: i32) -> u8
    ensures { result ≡ refusal_of (exact w32 (neg_ℤ a)) }
{
    answers::refusal_number(int_macros::strict_neg::<i32>(a))
}

#[unsafe(no_mangle)]
pub extern "C" fn ply_strict_neg_i32_value(a: i32) -> i32
    ensures { result ≡ whole (exact w32 (neg_ℤ a)) }
{
    answers::value(int_macros::strict_neg::<i32>(a))
}

#[unsafe(no_mangle)]
pub extern "C" fn ply_strict_abs_i32_refusal(a: i32) -> u8
    ensures { result ≡ refusal_of (exact w32 (absolute a)) }
{
    answers::refusal_number(int_macros::strict_abs::<i32>(a))
}

#[unsafe(no_mangle)]
pub extern "C" fn ply_strict_abs_i32_value(a: i32) -> i32
    ensures { result ≡ whole (exact w32 (absolute a)) }
{
    answers::value(int_macros::strict_abs::<i32>(a))
}

#[unsafe(no_mangle)]
pub extern "C" fn ply_wrapping_add_i32(a: i32, b: i32) -> i32
    ensures { result ≡ wrap w32 (a +ℤ b) }
{
    int_macros::wrapping_add::<i32>(a, b)
}

#[unsafe(no_mangle)]
pub extern "C" fn ply_wrapping_sub_i32(a: i32, b: i32) -> i32
    ensures { result ≡ wrap w32 (a -ℤ b) }
{
    int_macros::wrapping_sub::<i32>(a, b)
}

#[unsafe(no_mangle)]
pub extern "C" fn ply_wrapping_neg_i32(a: i32) -> i32
    ensures { result ≡ wrap w32 (neg_ℤ a) }
{
    int_macros::wrapping_neg::<i32>(a)
}

#[unsafe(no_mangle)]
pub extern "C" fn ply_unsigned_abs_i32(a: i32) -> u32
    ensures { result ≡ nat_abs a }
{
    int_macros::unsigned_abs::<i32>(a)
}

#[unsafe(no_mangle)]
pub extern "C" fn ply_rem_euclid_i32_refusal(a: i32, d: i32) -> u8
    ensures { result ≡ refusal_of (rem_euclid w32 a d) }
{
    answers::refusal_number(int_macros::rem_euclid::<i32>(a, d))
}

#[unsafe(no_mangle)]
pub extern "C" fn ply_rem_euclid_i32_value(a: i32, d: i32) -> i32
    ensures { result ≡ whole (rem_euclid w32 a d) }
{
    answers::value(int_macros::rem_euclid::<i32>(a, d))
}

#[unsafe(no_mangle)]
pub extern "C" fn ply_next_multiple_of_i32_refusal(a: i32, d: i32) -> u8
    ensures { result ≡ refusal_of (next_multiple w32 a d) }
{
    answers::refusal_number(int_macros::next_multiple_of::<i32>(a, d))
}

#[unsafe(no_mangle)]
pub extern "C" fn ply_next_multiple_of_i32_value(a: i32, d: i32) -> i32
    ensures { result ≡ whole (next_multiple w32 a d) }
{
    answers::value(int_macros::next_multiple_of::<i32>(a, d))
}

#[unsafe(no_mangle)]
pub extern "C" fn ply_strict_add_i64_refusal(a: i64, b: i64) -> u8
    ensures { result ≡ refusal_of (exact w64 (a +ℤ b)) }
{
    answers::refusal_number(int_macros::strict_add::<i64>(a, b))
}

#[unsafe(no_mangle)]
pub extern "C" fn ply_strict_add_i64_value(a: i64, b: i64) -> i64
    ensures { result ≡ whole (exact w64 (a +ℤ b)) }
{
    answers::value(int_macros::strict_add::<i64>(a, b))
}

#[unsafe(no_mangle)]
pub extern "C" fn ply_strict_sub_i64_refusal(a: i64, b: i64) -> u8
    ensures { result ≡ refusal_of (exact w64 (a -ℤ b)) }
{
    answers::refusal_number(int_macros::strict_sub::<i64>(a, b))
}

#[unsafe(no_mangle)]
pub extern "C" fn ply_strict_sub_i64_value(a: i64, b: i64) -> i64
    ensures { result ≡ whole (exact w64 (a -ℤ b)) }
{
    answers::value(int_macros::strict_sub::<i64>(a, b))
}

#[unsafe(no_mangle)]
pub extern "C" fn ply_strict_neg_i64_refusal(a: i64) -> u8
    ensures { result ≡ refusal_of (exact w64 (neg_ℤ a)) }
{
    answers::refusal_number(int_macros::strict_neg::<i64>(a))
}

#[unsafe(no_mangle)]
pub extern "C" fn ply_strict_neg_i64_value(a: i64) -> i64
    ensures { result ≡ whole (exact w64 (neg_ℤ a)) }
{
    answers::value(int_macros::strict_neg::<i64>(a))
}

#[unsafe(no_mangle)]
pub extern "C" fn ply_strict_abs_i64_refusal(a: i64) -> u8
    ensures { result ≡ refusal_of (exact w64 (absolute a)) }
{
    answers::refusal_number(int_macros::strict_abs::<i64>(a))
}

#[unsafe(no_mangle)]
pub extern "C" fn ply_strict_abs_i64_value(a: i64) -> i64
    ensures { result ≡ whole (exact w64 (absolute a)) }
{
    answers::value(int_macros::strict_abs::<i64>(a))
}

#[unsafe(no_mangle)]
pub extern "C" fn ply_wrapping_add_i64(a: i64, b: i64) -> i64
    ensures { result ≡ wrap w64 (a +ℤ b) }
{
    int_macros::wrapping_add::<i64>(a, b)
}

#[unsafe(no_mangle)]
pub extern "C" fn ply_wrapping_sub_i64(a: i64, b: i64) -> i64
    ensures { result ≡ wrap w64 (a -ℤ b) }
{
    int_macros::wrapping_sub::<i64>(a, b)
}

#[unsafe(no_mangle)]
pub extern "C" fn ply_wrapping_neg_i64(a: i64) -> i64
    ensures { result ≡ wrap w64 (neg_ℤ a) }
{
    int_macros::wrapping_neg::<i64>(a)
}

#[unsafe(no_mangle)]
pub extern "C" fn ply_unsigned_abs_i64(a: i64) -> u64
    ensures { result ≡ nat_abs a }
{
    int_macros::unsigned_abs::<i64>(a)
}

#[unsafe(no_mangle)]
pub extern "C" fn ply_rem_euclid_i64_refusal(a: i64, d: i64) -> u8
    ensures { result ≡ refusal_of (rem_euclid w64 a d) }
{
    answers::refusal_number(int_macros::rem_euclid::<i64>(a, d))
}

#[unsafe(no_mangle)]
pub extern "C" fn ply_rem_euclid_i64_value(a: i64, d: i64) -> i64
    ensures { result ≡ whole (rem_euclid w64 a d) }
{
    answers::value(int_macros::rem_euclid::<i64>(a, d))
}

#[unsafe(no_mangle)]
pub extern "C" fn ply_next_multiple_of_i64_refusal(a: i64, d: i64) -> u8
    ensures { result ≡ refusal_of (next_multiple w64 a d) }
{
    answers::refusal_number(int_macros::next_multiple_of::<i64>(a, d))
}

#[unsafe(no_mangle)]
pub extern "C" fn ply_next_multiple_of_i64_value(a: i64, d: i64) -> i64
    ensures { result ≡ whole (next_multiple w64 a d) }
{
    answers::value(int_macros::next_multiple_of::<i64>(a, d))
}

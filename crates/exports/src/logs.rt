// The decimal logarithm at each type and the digit count as C functions.
ghost use Rattle.std.specs.Prelude.{◌≡◌, pos};
ghost use Rattle.answers.specs.Reply.{refusal_of, natural};
ghost use Rattle.int_log10.specs.Log.{log_of, digit_count};

#[unsafe(no_mangle)]
pub extern "C" fn ply_ilog10_u8_refusal(v: u8) -> u8
    ensures { result ≡ refusal_of (log_of (pos v)) }
{
    answers::refusal_number(int_log10::checked_ilog10::<u8>(v))
}

#[unsafe(no_mangle)]
pub extern "C" fn ply_ilog10_u8_value(v: u8) -> u32
    ensures { result ≡ natural (log_of (pos v)) }
{
    answers::value(int_log10::checked_ilog10::<u8>(v))
}

#[unsafe(no_mangle)]
pub extern "C" fn ply_ilog10_u16_refusal(v: u16) -> u8
    ensures { result ≡ refusal_of (log_of (pos v)) }
{
    answers::refusal_number(int_log10::checked_ilog10::<u16>(v))
}

#[unsafe(no_mangle)]
pub extern "C" fn ply_ilog10_u16_value(v: u16) -> u32
    ensures { result ≡ natural (log_of (pos v)) }
{
    answers::value(int_log10::checked_ilog10::<u16>(v))
}

#[unsafe(no_mangle)]
pub extern "C" fn ply_ilog10_u32_refusal(v: u32) -> u8
    ensures { result ≡ refusal_of (log_of (pos v)) }
{
    answers::refusal_number(int_log10::checked_ilog10::<u32>(v))
}

#[unsafe(no_mangle)]
pub extern "C" fn ply_ilog10_u32_value(v: u32) -> u32
    ensures { result ≡ natural (log_of (pos v)) }
{
    answers::value(int_log10::checked_ilog10::<u32>(v))
}

#[unsafe(no_mangle)]
pub extern "C" fn ply_ilog10_u64_refusal(v: u64) -> u8
    ensures { result ≡ refusal_of (log_of (pos v)) }
{
    answers::refusal_number(int_log10::checked_ilog10::<u64>(v))
}

#[unsafe(no_mangle)]
pub extern "C" fn ply_ilog10_u64_value(v: u64) -> u32
    ensures { result ≡ natural (log_of (pos v)) }
{
    answers::value(int_log10::checked_ilog10::<u64>(v))
}

#[unsafe(no_mangle)]
pub extern "C" fn ply_ilog10_i8_refusal(v: i8) -> u8
    ensures { result ≡ refusal_of (log_of v) }
{
    answers::refusal_number(int_log10::checked_ilog10::<i8>(v))
}

#[unsafe(no_mangle)]
pub extern "C" fn ply_ilog10_i8_value(v: i8) -> u32
    ensures { result ≡ natural (log_of v) }
{
    answers::value(int_log10::checked_ilog10::<i8>(v))
}

#[unsafe(no_mangle)]
pub extern "C" fn ply_ilog10_i16_refusal(v: i16) -> u8
    ensures { result ≡ refusal_of (log_of v) }
{
    answers::refusal_number(int_log10::checked_ilog10::<i16>(v))
}

#[unsafe(no_mangle)]
pub extern "C" fn ply_ilog10_i16_value(v: i16) -> u32
    ensures { result ≡ natural (log_of v) }
{
    answers::value(int_log10::checked_ilog10::<i16>(v))
}

#[unsafe(no_mangle)]
pub extern "C" fn ply_ilog10_i32_refusal(v: i32) -> u8
    ensures { result ≡ refusal_of (log_of v) }
{
    answers::refusal_number(int_log10::checked_ilog10::<i32>(v))
}

#[unsafe(no_mangle)]
pub extern "C" fn ply_ilog10_i32_value(v: i32) -> u32
    ensures { result ≡ natural (log_of v) }
{
    answers::value(int_log10::checked_ilog10::<i32>(v))
}

#[unsafe(no_mangle)]
pub extern "C" fn ply_ilog10_i64_refusal(v: i64) -> u8
    ensures { result ≡ refusal_of (log_of v) }
{
    answers::refusal_number(int_log10::checked_ilog10::<i64>(v))
}

#[unsafe(no_mangle)]
pub extern "C" fn ply_ilog10_i64_value(v: i64) -> u32
    ensures { result ≡ natural (log_of v) }
{
    answers::value(int_log10::checked_ilog10::<i64>(v))
}

#[unsafe(no_mangle)]
pub extern "C" fn ply_digit_count_refusal(v: u64) -> u8
    ensures { result ≡ refusal_of (digit_count v) }
{
    answers::refusal_number(int_log10::digit_count(v))
}

#[unsafe(no_mangle)]
pub extern "C" fn ply_digit_count_value(v: u64) -> u32
    ensures { result ≡ natural (digit_count v) }
{
    answers::value(int_log10::digit_count(v))
}

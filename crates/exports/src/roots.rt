// The roots as C functions.
ghost use Rattle.std.specs.Prelude.{◌≡◌};
ghost use Rattle.answers.specs.Reply.{refusal_of, whole};
ghost use Rattle.int_sqrt.specs.Root.{root, root_of};

#[unsafe(no_mangle)]
pub extern "C" fn ply_isqrt_u8(n: u8) -> u8
    ensures { result ≡ root n }
{
    int_sqrt::isqrt::<u8>(n)
}

#[unsafe(no_mangle)]
pub extern "C" fn ply_isqrt_u16(n: u16) -> u16
    ensures { result ≡ root n }
{
    int_sqrt::isqrt::<u16>(n)
}

#[unsafe(no_mangle)]
pub extern "C" fn ply_isqrt_u32(n: u32) -> u32
    ensures { result ≡ root n }
{
    int_sqrt::isqrt::<u32>(n)
}

#[unsafe(no_mangle)]
pub extern "C" fn ply_isqrt_u64(n: u64) -> u64
    ensures { result ≡ root n }
{
    int_sqrt::isqrt::<u64>(n)
}

#[unsafe(no_mangle)]
pub extern "C" fn ply_isqrt_i8_refusal(n: i8) -> u8
    ensures { result ≡ refusal_of (root_of n) }
{
    answers::refusal_number(int_sqrt::root_check(n as i64))
}

#[unsafe(no_mangle)]
pub extern "C" fn ply_isqrt_i8_value(n: i8) -> i8
    ensures { result ≡ whole (root_of n) }
{
    answers::value(int_sqrt::checked_isqrt::<i8>(n))
}

#[unsafe(no_mangle)]
pub extern "C" fn ply_isqrt_i16_refusal(n: i16) -> u8
    ensures { result ≡ refusal_of (root_of n) }
{
    answers::refusal_number(int_sqrt::root_check(n as i64))
}

#[unsafe(no_mangle)]
pub extern "C" fn ply_isqrt_i16_value(n: i16) -> i16
    ensures { result ≡ whole (root_of n) }
{
    answers::value(int_sqrt::checked_isqrt::<i16>(n))
}

#[unsafe(no_mangle)]
pub extern "C" fn ply_isqrt_i32_refusal(n: i32) -> u8
    ensures { result ≡ refusal_of (root_of n) }
{
    answers::refusal_number(int_sqrt::root_check(n as i64))
}

#[unsafe(no_mangle)]
pub extern "C" fn ply_isqrt_i32_value(n: i32) -> i32
    ensures { result ≡ whole (root_of n) }
{
    answers::value(int_sqrt::checked_isqrt::<i32>(n))
}

#[unsafe(no_mangle)]
pub extern "C" fn ply_isqrt_i64_refusal(n: i64) -> u8
    ensures { result ≡ refusal_of (root_of n) }
{
    answers::refusal_number(int_sqrt::root_check(n))
}

#[unsafe(no_mangle)]
pub extern "C" fn ply_isqrt_i64_value(n: i64) -> i64
    ensures { result ≡ whole (root_of n) }
{
    answers::value(int_sqrt::checked_isqrt::<i64>(n))
}

// The rows of the rules on either side of the edge that no theorem has.
ghost use Rattle.std.specs.Prelude.{◌^◌, ◌<◌};

use crate::output::Output;
use crate::tally::Tally;
use answers::Refusal;
use cards::Field;
use int_log10::checked_ilog10;
use int_macros::{next_multiple_of, rem_euclid};

fn root() -> Tally {
    Tally::of(&[int_sqrt::isqrt(u64::MAX) == 4_294_967_295])
}

// Whether a number has the log at each type of 32 and 64 bits.
fn has_log(v: u32, log: u32) -> bool
    requires { v < 2 ^ 31 }
{
    checked_ilog10(v) == Ok(log)
        && checked_ilog10(u64::from(v)) == Ok(log)
        && checked_ilog10(v as i32) == Ok(log)
        && checked_ilog10(i64::from(v)) == Ok(log)
}

fn log() -> Tally {
    Tally::of(&[
        has_log(99_999, 4),
        has_log(100_000, 5),
        checked_ilog10(u64::MAX) == Ok(19),
    ])
}

fn remainder() -> Tally {
    Tally::of(&[
        rem_euclid(i8::MIN, -1) == Err(Refusal::NoFit),
        rem_euclid(5i8, 0) == Err(Refusal::DivisorZero),
    ])
}

fn next_multiple() -> Tally {
    Tally::of(&[
        next_multiple_of(i8::MIN, -3) == Err(Refusal::NoFit),
        next_multiple_of(i8::MIN, -1) == Ok(i8::MIN),
    ])
}

// The same write twice, then one of a number that is too wide; each leaves the word of the first.
fn guarded_write() -> Tally {
    let mut table = [0xFF00u64];
    let field = Field {
        card: 0,
        mask: 0x0FF0,
    };
    let first = field.write(&mut table, 0xF0, 0x0A) == Ok(()) && table == [0xF0A0];
    let again = field.write(&mut table, 0xF0, 0x0A) == Err(Refusal::Differs) && table == [0xF0A0];
    let wide = field.write(&mut table, 0x0A, 0x100) == Err(Refusal::TooWide) && table == [0xF0A0];
    Tally::of(&[first, again, wide])
}

pub fn write(output: &mut Output) {
    writeln!(output, "rows, root: {}", root());
    writeln!(output, "rows, log: {}", log());
    writeln!(output, "rows, remainder: {}", remainder());
    writeln!(output, "rows, next multiple: {}", next_multiple());
    writeln!(output, "rows, guarded write: {}", guarded_write());
}

// The list of right answers, replayed: the entries of each kind stand together, in the order of the kinds.
ghost use Rattle.std.specs.Prelude.{◌≤◌, length};

use crate::entry::Entry;
use crate::kind::Kind;
use crate::output::Output;
use crate::tally::Tally;
use crate::{batch, forms, table};

// Whether an entry's call gives the refusal, and the answer among the words. The words of a form of numbers: value, a, b.
fn is_right(entry: &Entry) -> bool {
    match entry.kind {
        Kind::Signed(form, width) => entry.has_answer(forms::call(
            form,
            width,
            entry.word(1),
            entry.word(2),
        )),
        Kind::DigitCount => entry.has_answer(int_log10::digit_count(entry.word(1)).map(u64::from)),
        Kind::GatherBatch => batch::is_right(entry, batches::gather_batch),
        Kind::ScatterBatch => batch::is_right(entry, batches::scatter_batch),
        Kind::CardRead => table::is_read_right(entry),
        Kind::CardWrite => table::is_write_right(entry),
    }
}

// Replays the entries of a kind at the front of a list, writes the kind's line, and gives the rest of the list.
fn one_kind<'a>(output: &mut Output, list: &'a [u8], kind: Kind) -> &'a [u8]
    ensures { length result.now ≤ length list.now }
{
    let mut tally = Tally::default();
    let mut rest = list;
    while let Some((entry, after)) = Entry::split_first(rest) {
        if entry.kind != kind {
            break;
        }
        tally.count(is_right(&entry));
        rest = after;
    }
    writeln!(output, "{kind}: {tally}");
    rest
}

// Replays the entries of every kind, in the order of the kinds' numbers, and gives the rest of the list.
fn all_kinds<'a>(output: &mut Output, list: &'a [u8]) -> &'a [u8]
    ensures { length result.now ≤ length list.now }
{
    let mut rest = list;
    for number in 0..=u8::MAX {
        if let Ok(kind) = Kind::try_from(number) {
            rest = one_kind(output, rest, kind);
        }
    }
    rest
}

// Replays the list, and says how much of it is left over: what is no entry, or stands out of order.
pub fn write(output: &mut Output, list: &[u8]) {
    let left_over = all_kinds(output, list).len();
    writeln!(output, "left over: {left_over} bytes");
}

// The guarded card table as C functions. A table is a pointer and a count of words.
ghost use Rattle.std.specs.Prelude.{◌≡◌};
ghost use Rattle.answers.specs.Reply.{refusal_of, natural};
ghost use Rattle.cards.specs.Table.{read_reply, write_reply, written};

use cards::Field;

#[unsafe(no_mangle)]
pub extern "C" fn ply_card_read_refusal(table: &[u64], card: usize, mask: u64) -> u8
    ensures { result ≡ refusal_of (read_reply table.now card mask) }
{
    answers::refusal_number(Field { card, mask }.read(table))
}

#[unsafe(no_mangle)]
pub extern "C" fn ply_card_read_value(table: &[u64], card: usize, mask: u64) -> u64
    ensures { result ≡ natural (read_reply table.now card mask) }
{
    answers::value(Field { card, mask }.read(table))
}

// Its refusal, or 0; it gives no number.
#[unsafe(no_mangle)]
pub extern "C" fn ply_card_write(
    table: &mut [u64],
    card: usize,
    mask: u64,
    expected: u64,
    new: u64,
) -> u8
    ensures returns { result ≡ refusal_of (write_reply table.old card mask expected new) }
    ensures leaves { table.new ≡ written table.old card mask expected new }
{
    answers::refusal_number(Field { card, mask }.write(table, expected, new))
}

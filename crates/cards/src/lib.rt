// The guarded card table: a lent slice of words, one for each card, whose fields are read and written under masks.
// A call first decides whether it is refused, and then acts.
#![tactic(auto)]

ghost use Rattle.std.specs.Prelude.{◌≡◌, ◌<◌};
ghost use Rattle.int_bits.specs.Stored.{stored};
ghost use Rattle.cards.specs.Table.{cards, seen, too_wide, updated, ChecksCard, ChecksGuard, ChecksWrite, Reads, Writes};

use answers::Refusal;

// A card's field: the bits of its word under a mask.
#[derive(Clone, Copy, Debug, PartialEq, Eq)]
pub struct Field {
    pub card: usize,
    pub mask: u64,
}

// Whether a number has a bit at or above the count of the mask's ones.
#[tactic(auto, using(crate::proofs::Wide::by_high_bits, crate::proofs::Wide::never_wide))]
pub fn too_wide(number: u64, mask: u64) -> bool
    ensures { result ≡ too_wide number mask }
{
    number.unbounded_shr(mask.count_ones()) != 0
}

// A word without the mask's bits, plus the new number scattered under the mask.
#[tactic(auto, using(int_bits::proofs::Stored::stored_lt), unfolding(int_bits::specs::Stored::stored))]
fn with_field(word: u64, mask: u64, new: u64) -> u64
    ensures { result ≡ stored 64 word mask new }
{
    (word - (word & mask)) + int_bits::scatter(new, mask)
}

impl Field {
    // Whether the table, the card or the mask refuses a call.
    #[tactic(auto, unfolding(crate::specs::Table::card_rows))]
    pub fn check(self, table: &[u64]) -> Result<(), Refusal>
        ensures { ChecksCard table.now self.card self.mask result }
    {
        if table.len() > 4096 {
            return Err(Refusal::TableTooLong);
        }
        if self.card >= table.len() {
            return Err(Refusal::NoSuchCard);
        }
        if self.mask == 0 {
            return Err(Refusal::EmptyMask);
        }
        Ok(())
    }

    // The number in the field.
    fn seen(self, table: &[u64]) -> u64
        requires { self.card < cards table.now }
        ensures { result ≡ seen table.now self.card self.mask }
    {
        int_bits::gather(table[self.card], self.mask)
    }

    // The number in the field, or the refusal.
    #[tactic(auto, using(crate::proofs::Accepts::readable, crate::proofs::Accepts::read_refused, crate::proofs::Accepts::read_accepted))]
    pub fn read(self, table: &[u64]) -> Result<u64, Refusal>
        ensures { Reads table.now self.card self.mask result }
    {
        self.check(table)?;
        Ok(self.seen(table))
    }

    // Whether the numbers, or what is in the field of a card in the table, refuse a guarded write.
    #[tactic(auto, unfolding(crate::specs::Table::guard_rows))]
    fn guard_check(self, table: &[u64], expected: u64, new: u64) -> Result<(), Refusal>
        requires { self.card < cards table.now }
        ensures { ChecksGuard table.now self.card self.mask expected new result }
    {
        if too_wide(expected, self.mask) {
            return Err(Refusal::TooWide);
        }
        if too_wide(new, self.mask) {
            return Err(Refusal::TooWide);
        }
        if self.seen(table) != expected {
            return Err(Refusal::Differs);
        }
        Ok(())
    }

    // Whether a guarded write is refused. The two numbers are arguments, as of a compare-and-exchange.
    #[tactic(auto, using(crate::proofs::Accepts::readable, crate::proofs::Accepts::check_refused, crate::proofs::Accepts::check_passed))]
    pub fn write_check(self, table: &[u64], expected: u64, new: u64) -> Result<(), Refusal>
        ensures { ChecksWrite table.now self.card self.mask expected new result }
    {
        self.check(table)?;
        self.guard_check(table, expected, new)
    }

    // The new number goes into the field, whatever is there; where there is no such card, nothing changes. `get_mut` would not say that.
    #[tactic(auto, unfolding(crate::specs::Table::updated))]
    fn store(self, table: &mut [u64], new: u64)
        ensures { table.new ≡ updated table.old self.card self.mask new }
    {
        if self.card < table.len() {
            table[self.card] = with_field(table[self.card], self.mask, new);
        }
    }

    // The new number goes into the field, if the field holds the expected one and nothing else refuses it.
    pub fn write(self, table: &mut [u64], expected: u64, new: u64) -> Result<(), Refusal>
        ensures { Writes table.old self.card self.mask expected new result table.new }
    {
        self.write_check(table, expected, new)?;
        self.store(table, new);
        Ok(())
    }
}

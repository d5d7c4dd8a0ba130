// The entries of a book message in its bytes, and whether they are listed (document 01, "One unit").
ghost use Rattle.std.specs.Prelude.{◌≡◌, ◌+◌, ◌*◌, ◌≤◌, ◌<◌, true, length, drop};
ghost use Rattle.ladder.specs.Message.{depth, listed_rank, no_entries, entries_at, entry_size, entry_of, entry_at, entries_from, listed_entry};
ghost use Rattle.wire.specs.Number.{word32};
ghost use Rattle.ground.specs.Choice.{all};

use super::{
    BookEntries, CLEAR, DELETE, DEPTH, ENTRIES_AT, ENTRY_BYTES, Entry, NO_ENTRIES_AT, OFFER, Row,
};

// The entry in the 24 bytes from `at` on, all of them there.
pub(crate) fn entry_at(part: &[u8], at: usize) -> Entry
    requires { at + entry_size ≤ length part.now }
    ensures { result ≡ entry_at at part.now }
{
    Entry {
        row: Row {
            price: wire::biased(wire::number_in::<4>(part, at + 8)),
            quantity: wire::u64_in(part, at),
            orders: wire::number_in::<4>(part, at + 12),
        },
        side: wire::number_in::<2>(part, at + 16),
        level: wire::number_in::<1>(part, at + 18) as usize,
        action: wire::number_in::<1>(part, at + 19),
    }
}

// Whether a number is a rank.
#[tactic(auto, unfolding(crate::specs::Message::listed_rank))]
pub fn is_rank(level: usize) -> bool
    ensures listed { result ≡ listed_rank level }
    ensures within { result ≡ true → (1 ≤ level) × (level ≤ depth) }
{
    (1..=DEPTH).contains(&level)
}

// Whether an entry's side, level and action are listed; of a clear, only its action is looked at.
#[tactic(auto, unfolding(crate::specs::Message::listed_entry, crate::specs::Message::listed_side, ground::specs::Choice::one_of))]
fn is_listed(e: Entry) -> bool
    ensures { result ≡ listed_entry e }
{
    e.action == CLEAR || (e.action <= DELETE && e.side <= OFFER && is_rank(e.level))
}

impl<'a> BookEntries<'a> {
    // Those of a message of the right size.
    pub fn of(m: &'a [u8]) -> BookEntries<'a>
        requires { length m.now ≡ entries_at + entry_size * no_entries m.now }
        ensures { (result.n ≡ no_entries m.now) × (result.part.now ≡ drop entries_at m.now) }
    {
        let n = wire::number_in::<1>(m, NO_ENTRIES_AT) as usize;
        let part = &m[ENTRIES_AT..];
        BookEntries { part, n }
    }

    // Whether all of them are listed.
    pub fn all_listed(self) -> bool
        ensures { result ≡ all listed_entry (entries_from self.entry.n 0 self.entry.part.now) }
    {
        let BookEntries { part, n } = self;
        (0..n).all(|i| is_listed(entry_at(part, ENTRY_BYTES * i)))
    }
}

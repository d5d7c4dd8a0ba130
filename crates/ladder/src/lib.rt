// One book: rows, two sides, the entries of a book message (document 01, "One unit", "The book table", "Entries, against a side of n rows").
#![tactic(auto)]

ghost use Rattle.std.specs.Prelude.{◌≡◌, ◌+◌, ◌*◌, ◌≤◌, ◌<◌, length, MatchResult};
ghost use Rattle.ground.specs.declared.Refusal.TheVariants.{Unlisted};
ghost use Rattle.ladder.specs.Message.{entry_size};
ghost use Rattle.ladder.specs.Words.{side_width, book_width};
ghost use Rattle.ladder.specs.Code.Arrays.{way_of};
ghost use Rattle.ladder.specs.Code.Loading.{count_at, rows_at};

use ground::Refusal;

mod entries;
mod sides;
mod walking;
mod words;

pub use entries::is_rank;
pub use walking::walk;
pub use words::{empty, is_sound, row_at};

// A side has at most ten rows.
pub const DEPTH: usize = 10;

// The words of a row, and of a side: ten rows.
pub const ROW_WORDS: usize = 3;

pub const SIDE_WORDS: usize = ROW_WORDS * DEPTH;

// Where the counts stand in a book's words, where its bids and its offers begin, and how many words it has.
pub const BID_COUNT_AT: usize = 1;

pub const OFFER_COUNT_AT: usize = 2;

pub const SPARE_AT: usize = 3;

pub const BIDS_AT: usize = 4;

pub const OFFERS_AT: usize = BIDS_AT + SIDE_WORDS;

pub const BOOK_WORDS: usize = OFFERS_AT + SIDE_WORDS;

// Where a book message has the number of its entries, where its entries begin, and how long one is.
pub const NO_ENTRIES_AT: usize = 11;

pub const ENTRIES_AT: usize = 12;

pub const ENTRY_BYTES: usize = 24;

// The sides and the actions of an entry.
pub const BID: u64 = 0;

pub const OFFER: u64 = 1;

pub const NEW: u64 = 0;

pub const CHANGE: u64 = 1;

pub const DELETE: u64 = 2;

pub const CLEAR: u64 = 74;

// The two sides.
#[derive(Clone, Copy, Debug, PartialEq, Eq)]
pub enum Way {
    Bid,
    Offer,
}

impl Way {
    // Where a side's count stands in a book's words.
    pub fn count_at(self) -> usize
        ensures { (result ≡ count_at self) × (result < book_width) }
    {
        match self {
            Way::Bid => BID_COUNT_AT,
            Way::Offer => OFFER_COUNT_AT,
        }
    }

    // Where its ten rows begin.
    pub fn rows_at(self) -> usize
        ensures { (result ≡ rows_at self) × (result + side_width ≤ book_width) }
    {
        match self {
            Way::Bid => BIDS_AT,
            Way::Offer => OFFERS_AT,
        }
    }
}

// The side of a number as sent: 0 the bids, 1 the offers. A match on both had the walk branch by the side of each entry.
impl TryFrom<u64> for Way {
    type Error = Refusal;

    ghost try_from_gives = { λ side r. MatchResult r (λ way. (side ≤ 1) × (way ≡ way_of side)) (λ e. (1 < side) × (e ≡ Unlisted)) };

    fn try_from(side: u64) -> Result<Way, Refusal> {
        if OFFER < side {
            return Err(Refusal::Unlisted);
        }
        Ok(if side == BID { Way::Bid } else { Way::Offer })
    }
}

// A row of a side. The price is the price word: the price sent, plus 2,147,483,648.
#[derive(Clone, Copy, Debug, PartialEq, Eq)]
pub struct Row {
    pub price: u64,
    pub quantity: u64,
    pub orders: u64,
}

// The row that stands beyond the count.
pub const NO_ROW: Row = Row {
    price: 0,
    quantity: 0,
    orders: 0,
};

// Both sides of a book, the bids first: ten rows each, and how many of them are used. An array of structs was slower (docs/SPEED-TRIED.md, `[Side; 2]`).
#[derive(Clone, Copy)]
pub struct BookSides {
    pub rows: [[Row; DEPTH]; 2],
    pub counts: [usize; 2],
}

// An entry of a book message, its numbers as sent, but for the price, which is the row's price word. Side and action are numbers, since unlisted ones are
// entries too (specs/Message: entry_of, listed_entry).
#[derive(Clone, Copy, Debug, PartialEq, Eq)]
pub struct Entry {
    pub row: Row,
    pub side: u64,
    pub level: usize,
    pub action: u64,
}

// The entries of a book message: its bytes from the first entry on, and how many entries are in them.
#[derive(Clone, Copy)]
pub struct BookEntries<'a> {
    pub part: &'a [u8],
    pub n: usize,
    ghost inside: { entry_size * n ≤ length part.now },
}

// What an entry makes of a side: its ten rows and its count, and the row that it drops.
#[derive(Clone, Copy)]
pub struct Applied {
    pub rows: [Row; DEPTH],
    pub count: usize,
    pub last: Option<Row>,
}

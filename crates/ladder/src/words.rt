// The words of a book: rows read and written, and whether they are sound (document 01, "The book table").
ghost use Rattle.std.specs.Prelude.{◌≡◌, map, ◌+◌, ◌≤◌, length, drop};
ghost use Rattle.ladder.specs.Code.Arrays.{Sides, as_book};
ghost use Rattle.slots.specs.Slots.{flat};
ghost use Rattle.slots.specs.Code.Overlay.{overlay};
ghost use Rattle.ladder.specs.Walk.{empty_book};
ghost use Rattle.ladder.specs.Words.{book_width, row_width, row_of, row_words, rows_from, words_of, sound_side, sound};
ghost use Rattle.ladder.specs.Code.Loading.{rows_at, count_in, rows_in, counts_in, in_order, sound_words};

use super::sides::{is_better, word_if};
use super::{
    BID_COUNT_AT, BOOK_WORDS, BookSides, DEPTH, OFFER_COUNT_AT, ROW_WORDS, Row, SPARE_AT, Way,
};

// The row in the three words from `at` on, of as many words as there are: an array of a book's would ask more.
pub fn row_at(block: &[u64], at: usize) -> Row
    requires { at + row_width ≤ length block.now }
    ensures { result ≡ row_of (drop at block.now) }
{
    Row {
        price: block[at],
        quantity: block[at + 1],
        orders: block[at + 2],
    }
}

// A side's ten rows.
fn load_side(block: &[u64; BOOK_WORDS], way: Way) -> [Row; DEPTH]
    ensures { result ≡ rows_from (rows_at way) block.now }
{
    let base = way.rows_at();
    std::array::from_fn(|k| row_at(block, base + ROW_WORDS * k))
}

// How many of a side's ten rows, from the first on, are each strictly better than the next. It is drawn in, so that the way is a constant there.
#[inline(always)]
fn in_order(block: &[u64; BOOK_WORDS], way: Way) -> u64
    ensures { result ≡ in_order way (rows_from (rows_at way) block.now) }
{
    let base = way.rows_at();
    let mut found = DEPTH as u64;
    for i in (1..DEPTH).rev() {
        let at = base + ROW_WORDS * i;
        let fine = is_better(way, block[at - ROW_WORDS], block[at]);
        found = word_if(fine, found, i as u64);
    }
    found
}

// Whether of a side's ten rows those behind the first n are zero, and all price and orders words below 4,294,967,296.
#[inline(always)]
fn words_sound(block: &[u64; BOOK_WORDS], way: Way, n: u64) -> bool
    ensures { result ≡ sound_words n (rows_from (rows_at way) block.now) }
{
    let base = way.rows_at();
    let mut used = 0;
    let mut lows = 0;
    for i in 0..DEPTH {
        let row = row_at(block, base + ROW_WORDS * i);
        let low = row.price | row.orders;
        lows |= low;
        used = word_if(low | row.quantity == 0, used, i as u64 + 1);
    }
    used <= n && lows < wire::WORD32
}

// Whether a side is sound, by how many rows are in order, how many are used, and one OR.
#[inline(always)]
fn is_side_sound(block: &[u64; BOOK_WORDS], way: Way) -> bool
    ensures { result ≡ sound_side way (count_in way block.now) (rows_from (rows_at way) block.now) }
{
    let n = block[way.count_at()];
    n <= in_order(block, way) && words_sound(block, way, n)
}

// Whether a book is sound.
#[tactic(auto, unfolding(crate::specs::Words::sound))]
pub fn is_sound(block: &[u64; BOOK_WORDS]) -> bool
    ensures { result ≡ sound block.now }
{
    block[SPARE_AT] == 0 && is_side_sound(block, Way::Bid) && is_side_sound(block, Way::Offer)
}

// A row written to the three words from `at` on.
fn write_row(block: &mut [u64; BOOK_WORDS], at: usize, row: Row)
    requires { at + row_width ≤ book_width }
    ensures { block.new ≡ overlay at (row_words row) block.old }
{
    block[at] = row.price;
    block[at + 1] = row.quantity;
    block[at + 2] = row.orders;
}

// A side's ten rows written.
fn write_side(block: &mut [u64; BOOK_WORDS], way: Way, rows: [Row; DEPTH])
    ensures { block.new ≡ overlay (rows_at way) (flat (map row_words rows)) block.old }
{
    let base = way.rows_at();
    for (i, row) in rows.iter().enumerate() {
        write_row(block, base + ROW_WORDS * i, *row);
    }
}

impl BookSides {
    // Those of a book.
    pub fn load(block: &[u64; BOOK_WORDS]) -> BookSides
        ensures { (result.rows ≡ rows_in block.now) × (result.counts ≡ counts_in block.now) }
    {
        BookSides {
            rows: [load_side(block, Way::Bid), load_side(block, Way::Offer)],
            counts: [block[BID_COUNT_AT] as usize, block[OFFER_COUNT_AT] as usize],
        }
    }

    // They are written to a book's words: code, counts, zero, bids, offers.
    pub(crate) fn write(self, block: &mut [u64; BOOK_WORDS], code: u64)
        requires { Sides self.rows self.counts }
        ensures { block.new ≡ words_of code (as_book self.rows self.counts) }
    {
        block[0] = code;
        block[BID_COUNT_AT] = self.counts[0] as u64;
        block[OFFER_COUNT_AT] = self.counts[1] as u64;
        block[SPARE_AT] = 0;
        write_side(block, Way::Bid, self.rows[0]);
        write_side(block, Way::Offer, self.rows[1]);
    }
}

// A code's book emptied: both counts 0, all rows zero.
pub fn empty(block: &mut [u64; BOOK_WORDS], code: u64)
    ensures { block.new ≡ words_of code empty_book }
{
    BookSides::empty().write(block, code);
}

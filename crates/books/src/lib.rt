// The lent table of books (document 01, "The book table"): a book message on it, and reading a row, or a side's rows, out of it.
#![tactic(auto)]

ghost use Rattle.std.specs.Prelude.{◌≡◌, true, false, ◌&&◌, ◌+◌, ◌-◌, ◌*◌, ◌<◌, ◌≤◌, length, MatchResult};
ghost use Rattle.ground.specs.Refusals.{answer_of};
ghost use Rattle.ground.specs.declared.Refusal.TheVariants.{Unlisted, Unsound};
ghost use Rattle.slots.specs.Layout.{landed, count_in, cleared_in};
ghost use Rattle.slots.specs.Code.Turns.{ready, slot_turn, within, place_turn, held_turn};
ghost use Rattle.wire.specs.Codes.{listed_code};
ghost use Rattle.ladder.specs.Message.{depth, no_entries, entries_at, entry_size, entries_from, listed_book, listed_side};
ghost use Rattle.ladder.specs.Walk.{walk};
ghost use Rattle.ladder.specs.Words.{book_width, sound};
ghost use Rattle.ladder.specs.Code.Arrays.{dropped_of};
ghost use Rattle.ladder.specs.Code.Loading.{rows_at, count_in as rows_used};
ghost use Rattle.wire.specs.Number.{word32};
ghost use Rattle.books.specs.Table.{books, place_in, block as block_of, rows_dropped};
ghost use Rattle.books.specs.Code.Turns.{start_rows, start_counts, empties, book_turn, slot_drops, place_drops};
ghost use Rattle.books.specs.Reading.{row_shown, level_of};
ghost use Rattle.books.specs.Code.Rows.{row_read, side_read, side_no, row_of_side, side_of_words};
ghost use Rattle.books.specs.Promised.{RowSays, SideSays};

use ground::Refusal;
use ladder::{BOOK_WORDS, BookEntries, BookSides, DEPTH, Row, Way};
use slots::{Layout, MOST, Slot};

// How the table of books is laid out.
const LAYOUT: Layout = Layout {
    width: BOOK_WORDS,
    most: MOST,
};

// A row that is read, its price signed as sent.
#[repr(C)]
#[derive(Clone, Copy, Debug, Default, PartialEq, Eq)]
pub struct Level {
    pub price: i64,
    pub quantity: u64,
    pub orders: u64,
}

// A side that is read at once: how many rows there are, and the rows, best first. Behind the count all is 0.
#[derive(Clone, Copy, Debug, PartialEq, Eq)]
pub struct Side {
    pub count: u64,
    pub rows: [Level; DEPTH],
}

// Whether a slot can be worked on: a code's own book has to be sound, and of a free slot nothing is asked. `own` tells the two apart, as in `slot_turn`:
// with one way into a slot the walk has one caller, and its sides are copied once less.
fn is_ready(words: &[u64; BOOK_WORDS], own: bool) -> bool
    ensures { result ≡ ready books own words.now }
{
    !own || ladder::is_sound(words)
}

// The sides of a slot's book; whatever the words of a free slot are, its book starts empty.
fn sides_in(words: &[u64; BOOK_WORDS], own: bool) -> BookSides
    ensures { (result.rows ≡ start_rows own words.now) × (result.counts ≡ start_counts own words.now) }
{
    if own {
        return BookSides::load(words);
    }
    BookSides::empty()
}

// A slot's words after the entries: 18 where it is a code's own and its book is not sound. They come as a slice, since nothing is known of the table behind
// an array that is made of a part of it where the part is lent.
fn in_words(
    words: &mut [u64],
    own: bool,
    code: u64,
    entries: BookEntries<'_>,
    time: u64,
) -> Result<u64, Refusal>
    requires { length words.old ≡ book_width }
    ensures { (landed (answer_of result) words.new ≡ slot_turn books own code (walk time (entries_from entries.entry.n 0 entries.entry.part.now)) words.old) × (dropped_of result ≡ slot_drops own time (entries_from entries.entry.n 0 entries.entry.part.now) words.old) }
{
    let Some(words) = words.as_mut_array() else {
        unreachable!()
    };
    if !is_ready(words, own) {
        return Err(Refusal::Unsound);
    }
    let sides = sides_in(words, own);
    ladder::walk(words, code, sides, entries, time)
}

// One slot of the table after the entries: its 64 words are lent on, and no other word can be reached.
fn in_slot(
    table: &mut [u64],
    k: usize,
    own: bool,
    code: u64,
    entries: BookEntries<'_>,
    time: u64,
) -> Result<u64, Refusal>
    requires { k < count_in books (length table.old) }
    ensures { (landed (answer_of result) table.new ≡ within books k table.old (slot_turn books own code (walk time (entries_from entries.entry.n 0 entries.entry.part.now)) (block_of k table.old))) × (dropped_of result ≡ slot_drops own time (entries_from entries.entry.n 0 entries.entry.part.now) (block_of k table.old)) }
{
    let a = BOOK_WORDS * k;
    in_words(&mut table[a..a + BOOK_WORDS], own, code, entries, time)
}

// The table after the entries for a code: in the lowest slot with the code, else the lowest free one, else 17. `strips::take` has these arms too; one function
// for both would take a trait of what a slot holds and a closure for what is made of it, and a book, unlike a strip, is worked on in its words.
fn placed(table: &mut [u64], code: u64, entries: BookEntries<'_>, time: u64) -> Result<u64, Refusal>
    ensures { (landed (answer_of result) table.new ≡ place_turn books (place_in code table.old) code (walk time (entries_from entries.entry.n 0 entries.entry.part.now)) table.old) × (dropped_of result ≡ place_drops (place_in code table.old) time (entries_from entries.entry.n 0 entries.entry.part.now) table.old) }
{
    match LAYOUT.find(table, code) {
        Slot::Held(k) => in_slot(table, k, true, code, entries, time),
        Slot::Free(k) => in_slot(table, k, false, code, entries, time),
        Slot::Full => Err(Refusal::Full),
    }
}

// A slot's words emptied, the code's own: 18 where its book is not sound. No row is dropped.
fn emptied_words(words: &mut [u64], code: u64) -> Result<u64, Refusal>
    requires { length words.old ≡ book_width }
    ensures { (landed (answer_of result) words.new ≡ slot_turn books true code empties words.old) × (dropped_of result ≡ 0) }
{
    let Some(words) = words.as_mut_array() else {
        unreachable!()
    };
    if !is_ready(words, true) {
        return Err(Refusal::Unsound);
    }
    ladder::empty(words, code);
    Ok(0)
}

// A code's own slot of the table emptied.
fn emptied_slot(table: &mut [u64], k: usize, code: u64) -> Result<u64, Refusal>
    requires { k < count_in books (length table.old) }
    ensures { (landed (answer_of result) table.new ≡ within books k table.old (slot_turn books true code empties (block_of k table.old))) × (dropped_of result ≡ 0) }
{
    let a = BOOK_WORDS * k;
    emptied_words(&mut table[a..a + BOOK_WORDS], code)
}

// A code's book emptied, in the lowest slot with the code; a code without one takes no slot.
fn emptied(table: &mut [u64], code: u64) -> Result<u64, Refusal>
    ensures { (landed (answer_of result) table.new ≡ held_turn books (place_in code table.old) code empties table.old) × (dropped_of result ≡ 0) }
{
    match LAYOUT.find(table, code) {
        Slot::Held(k) => emptied_slot(table, k, code),
        _ => Ok(0),
    }
}

// Whether the code and all entries of a book message of the right size are listed.
pub fn is_listed(m: &[u8]) -> bool
    requires { length m.now ≡ entries_at + entry_size * no_entries m.now }
    ensures { result ≡ listed_book m.now }
{
    if !wire::is_code(wire::number_in::<4>(m, wire::CODE_AT)) {
        return false;
    }
    BookEntries::of(m).all_listed()
}

// Every slot of the table emptied; the words behind the slots stay.
pub fn clear(table: &mut [u64])
    ensures { table.new ≡ cleared_in books table.old }
{
    LAYOUT.clear(table);
}

// A book message of the right size on the table: 18, 17, 16 or 0, in that order; only with 0 is anything written.
// With it comes how many rows its entries dropped.
pub fn take(table: &mut [u64], m: &[u8], time: u64) -> Result<u64, Refusal>
    requires { length m.now ≡ entries_at + entry_size * no_entries m.now }
    ensures { (landed (answer_of result) table.new ≡ book_turn time m.now table.old) × (dropped_of result ≡ rows_dropped time m.now table.old) }
{
    let entries = BookEntries::of(m);
    let code = wire::number_in::<4>(m, wire::CODE_AT);
    if entries.n == 0 {
        return emptied(table, code);
    }
    placed(table, code, entries, time)
}

// The side that is asked for, where code and side are listed.
fn asked(code: u64, side: u64) -> Result<Way, Refusal>
    ensures { MatchResult result (λ way. ((listed_code code && listed_side side) ≡ true) × (side ≡ side_no way)) (λ e. ((listed_code code && listed_side side) ≡ false) × (e ≡ Unlisted)) }
{
    if !wire::is_code(code) {
        return Err(Refusal::Unlisted);
    }
    Way::try_from(side)
}

// A row as it is read. A `From` could not ask that its price is a price word.
fn level_of(row: Row) -> Level
    requires { row.price < word32 }
    ensures { result ≡ level_of (row_shown row) }
{
    Level {
        price: wire::price_of(row.price),
        quantity: row.quantity,
        orders: row.orders,
    }
}

// A slot's words with a sound book in them, and what is read out of it.
#[derive(Clone, Copy)]
struct Sound<'a> {
    words: &'a [u64; BOOK_WORDS],
    ghost right: { sound words.now ≡ true },
}

impl<'a> Sound<'a> {
    // The words of a slot: 18 where the book in them is not sound.
    fn read(words: &'a [u64; BOOK_WORDS]) -> Result<Sound<'a>, Refusal>
        ensures { MatchResult result (λ book. book.words.now ≡ words.now) (λ e. (sound words.now ≡ false) × (e ≡ Unsound)) }
    {
        if ladder::is_sound(words) {
            Ok(Sound { words })
        } else {
            Err(Refusal::Unsound)
        }
    }

    // A row of a side: 4 where there is no such row.
    #[tactic(auto, using(crate::proofs::Showing::showing))]
    fn row(self, way: Way, rank: u64) -> Result<Level, Refusal>
        requires { (1 ≤ rank) × (rank ≤ depth) }
        ensures { row_read result ≡ row_of_side (rows_at way) (rows_used way self.entry.words.now) rank self.entry.words.now }
    {
        let words = self.words;
        if words[way.count_at()] < rank {
            return Err(Refusal::Missing);
        }
        let place = (rank - 1) as usize;
        let row = ladder::row_at(words, way.rows_at() + ladder::ROW_WORDS * place);
        Ok(level_of(row))
    }

    // A row of a side, zeros where there is no such row.
    #[tactic(auto, using(crate::proofs::Sides::siding))]
    fn level(self, way: Way, rank: u64) -> Level
        requires { (1 ≤ rank) × (rank ≤ depth) }
        ensures { result ≡ level_of (row_of_side (rows_at way) (rows_used way self.entry.words.now) rank self.entry.words.now) }
    {
        self.row(way, rank).unwrap_or_default()
    }

    // The rows of a side.
    fn side(self, way: Way) -> Side
        ensures { side_read (Ok result) ≡ side_of_words (rows_at way) (rows_used way self.entry.words.now) self.entry.words.now }
    {
        Side {
            count: self.words[way.count_at()],
            rows: std::array::from_fn(|k| self.level(way, k as u64 + 1)),
        }
    }
}

// A row by code, side and rank: 15, 4, 18, 4 or 0, in that order. It writes nothing.
#[tactic(auto, using(crate::proofs::Showing::showing))]
pub fn read_row(table: &[u64], code: u64, side: u64, rank: u64) -> Result<Level, Refusal>
    ensures { RowSays table.now code side rank (row_read result) }
{
    let way = asked(code, side)?;
    if !ladder::is_rank(rank as usize) {
        return Err(Refusal::Unlisted);
    }
    match LAYOUT.find(table, code) {
        Slot::Held(k) => Sound::read(slots::words_in(table, k))?.row(way, rank),
        _ => Err(Refusal::Missing),
    }
}

// The rows of a side at once, by code and side: 15, 4, 18 or 0, in that order. It writes nothing.
#[tactic(auto, using(crate::proofs::Sides::siding))]
pub fn read_side(table: &[u64], code: u64, side: u64) -> Result<Side, Refusal>
    ensures { SideSays table.now code side (side_read result) }
{
    let way = asked(code, side)?;
    match LAYOUT.find(table, code) {
        Slot::Held(k) => Ok(Sound::read(slots::words_in(table, k))?.side(way)),
        _ => Err(Refusal::Missing),
    }
}

// What is printed (document 01, example 10): a head line, the rows of all books, a last line.
ghost use Rattle.std.specs.Prelude.{◌≡◌, ◌≤◌, length, drop};
ghost use Rattle.books.specs.Code.Rows.{side_no};
ghost use Rattle.mmdh.specs.Text.{decimal, letter};

use super::{SLOTS, TABLE_WORDS};
use ladder::{BOOK_WORDS, DEPTH, Row, Way};

// The most that can be printed: a head of 37 bytes, the lines, and a last line of 52.
const LINE_BYTES: usize = 108;

const TEXT_BYTES: usize = 37 + 2 * LINE_BYTES * DEPTH * SLOTS + 52;

// A text in a buffer that has room for all that is printed: its first `len` bytes. (A `Vec` would be on the heap.)
#[derive(Clone, Copy)]
pub struct Output {
    pub bytes: [u8; TEXT_BYTES],
    pub len: usize,
    ghost inside: { len ≤ length bytes },
}

impl Output {
    ghost use Rattle.std.specs.Prelude.{◌≡◌, ◌+◌, ◌≤◌, length, take, [], ◌∷◌, ◌++◌};
    ghost use Rattle.std.proofs.Math.IntN.{sub_ℕ};
    ghost use Rattle.wire.specs.Number.{bias};
    ghost use Rattle.slots.specs.Slots.{code_of};
    ghost use Rattle.slots.specs.Layout.{slots_in};
    ghost use Rattle.ladder.specs.Code.Loading.{count_in, rows_at};
    ghost use Rattle.ladder.specs.Words.{rows_from};
    ghost use Rattle.books.specs.Code.Rows.{side_no};
    ghost use Rattle.books.specs.Table.{books};
    ghost use Rattle.feed.specs.Program.{side_lines, lines};
    ghost use Rattle.mmdh.specs.Text.{decimal, signed, space, line_text, lines_text, end_text, text};
    ghost use Rattle.mmdh.specs.Code.Rooms.{line_of, shown, Put, side_room, book_room, books_room, text_room, line_room, end_room, price_room, number_room};

    // No text.
    pub fn new() -> Output
        ensures { result.len ≡ 0 }
    {
        Output {
            bytes: [0; TEXT_BYTES],
            len: 0,
        }
    }

    // The bytes of the text.
    pub fn text(&self) -> &[u8]
        ensures { result.now ≡ take self.now.len self.now.bytes }
    {
        &self.bytes[..self.len]
    }

    // Puts bytes behind the text.
    fn put(&mut self, words: &[u8])
        requires { self.old.len + length words.now ≤ text_room }
        ensures { Put words.now (length words.now) self.old self.new }
    {
        let end = self.len + words.len();
        self.bytes[self.len..end].copy_from_slice(words);
        self.len = end;
    }

    // Puts a number, of at most 20 digits, and the byte that follows it.
    fn put_number(&mut self, n: u64, after: u8)
        requires { self.old.len + number_room ≤ text_room }
        ensures { Put (decimal n ++ (after ∷ [])) number_room self.old self.new }
    {
        let mut digits = [0; 20];
        let from = put_digits(&mut digits, n);
        self.put(&digits[from..]);
        self.put(&[after]);
    }

    // Puts a price, in thousandths, from its word in the table, and a space.
    fn put_price(&mut self, word: u64)
        requires { self.old.len + price_room ≤ text_room }
        ensures { Put (signed (sub_ℕ word bias) ++ space) price_room self.old self.new }
    {
        if word < wire::BIAS {
            self.put(b"-");
            return self.put_number(wire::BIAS - word, b' ');
        }
        self.put_number(word - wire::BIAS, b' ')
    }

    // Puts the line of a row, of at most 108 bytes.
    fn put_row(&mut self, code: u64, way: Way, rank: u64, row: Row)
        requires { self.old.len + line_room ≤ text_room }
        ensures { Put (line_text (line_of code (side_no way) rank row)) line_room self.old self.new }
    {
        self.put_number(code, b' ');
        self.put(&[letter_of(way), b' ']);
        self.put_number(rank, b' ');
        self.put_price(row.price);
        self.put_number(row.quantity, b' ');
        self.put_number(row.orders, b'\n');
    }

    // Puts the lines of one side of the book in a slot's words: of its ten rows as many as there are by its count.
    #[tactic(auto, using(crate::proofs::Texts::sides))]
    fn put_side(&mut self, words: &[u64; BOOK_WORDS], way: Way)
        requires { self.old.len + side_room ≤ text_room }
        ensures { Put (lines_text (side_lines (code_of words.now) (side_no way) 1 (take (count_in way words.now) (rows_from (rows_at way) words.now)))) side_room self.old self.new }
    {
        let base = way.rows_at();
        let n = words[way.count_at()].min(DEPTH as u64) as usize;
        for i in 0..n {
            let row = ladder::row_at(words, base + ladder::ROW_WORDS * i);
            self.put_row(words[0], way, i as u64 + 1, row);
        }
    }

    // Puts the lines of the book in a slot's words, bids before offers; none where the slot is free.
    #[tactic(auto, using(crate::proofs::Texts::book))]
    fn put_book(&mut self, words: &[u64; BOOK_WORDS])
        requires { self.old.len + book_room ≤ text_room }
        ensures { Put (lines_text (lines (words.now ∷ []))) book_room self.old self.new }
    {
        if words[0] == 0 {
            return;
        }
        self.put_side(words, Way::Bid);
        self.put_side(words, Way::Offer);
    }

    // Puts the lines of all books, in slot order.
    #[tactic(auto, using(crate::proofs::Texts::table))]
    fn put_books(&mut self, table: &[u64; TABLE_WORDS])
        requires { self.old.len + books_room ≤ text_room }
        ensures { Put (lines_text (lines (slots_in books table.now))) books_room self.old self.new }
    {
        for book in table.as_chunks::<BOOK_WORDS>().0 {
            self.put_book(book);
        }
    }

    // Puts the last line, of the last answer and the units accepted.
    #[tactic(auto, using(crate::proofs::Texts::end_put))]
    fn put_end(&mut self, answer: u64, units: u64)
        requires { self.old.len + end_room ≤ text_room }
        ensures { Put (end_text answer units) end_room self.old self.new }
    {
        self.put(b"end ");
        self.put_number(answer, b' ');
        self.put(b"units ");
        self.put_number(units, b'\n');
    }

    // Puts all that is printed.
    pub fn put_all(&mut self, table: &[u64; TABLE_WORDS], answer: u64, units: u64)
        requires { self.old.len ≡ 0 }
        ensures { Put (text (shown table.now answer units)) text_room self.old self.new }
    {
        self.put(b"code side rank price quantity orders\n");
        self.put_books(table);
        self.put_end(answer, units);
    }
}

// Puts a number's decimal digits, of which there are at most 20, at the end of twenty bytes: the place where they begin. By hand, as `program` cannot fail:
// what `write!` puts is known only where it answers Ok, and no contract says that it does.
#[tactic(auto, using(crate::proofs::Texts::digits_end))]
fn put_digits(digits: &mut [u8; 20], n: u64) -> usize
    ensures inside { result ≤ 20 }
    ensures digits { drop result digits.new ≡ decimal n }
{
    let mut rest = n;
    for from in (0..20).rev() {
        digits[from] = b'0' + (rest % 10) as u8;
        rest /= 10;
        if rest == 0 {
            return from;
        }
    }
    unreachable!()
}

// The letter of a side. A function, and no From: neither type is of this crate.
fn letter_of(way: Way) -> u8
    ensures { result ≡ letter (side_no way) }
{
    match way {
        Way::Bid => b'B',
        Way::Offer => b'O',
    }
}

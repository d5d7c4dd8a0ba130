// The walk over the entries of a message (document 01, "Entries, against a side of n rows").
ghost use Rattle.std.specs.Prelude.{◌≡◌};
ghost use Rattle.ground.specs.Refusals.{answer_of};
ghost use Rattle.slots.specs.Layout.{landed};
ghost use Rattle.ladder.specs.Message.{entries_from};
ghost use Rattle.ladder.specs.Walk.{walk as walk_book, dropped_by};
ghost use Rattle.ladder.specs.Code.Arrays.{Sides, as_book, dropped_of};
ghost use Rattle.ladder.specs.Code.Loading.{settled};

use super::entries::{entry_at, is_rank};
use super::sides::{apply, fits_at};
use super::{BOOK_WORDS, BookEntries, BookSides, CLEAR, ENTRY_BYTES, Way};
use ground::Refusal;

// The walk over the entries: each meets the sides as the entries before it left them, and the first that does not fit ends it with 16. After the last,
// the book is written over its words, and it says how many rows were dropped. A labelled loop, and no `for`: document 01 names the form.
pub fn walk(
    words: &mut [u64; BOOK_WORDS],
    code: u64,
    sides: BookSides,
    entries: BookEntries<'_>,
    time: u64,
) -> Result<u64, Refusal>
    requires { Sides sides.rows sides.counts }
    ensures { (landed (answer_of result) words.new ≡ settled code (walk_book time (entries_from entries.entry.n 0 entries.entry.part.now) (as_book sides.rows sides.counts)) words.old) × (dropped_of result ≡ dropped_by time (entries_from entries.entry.n 0 entries.entry.part.now) (as_book sides.rows sides.counts)) }
{
    let BookSides {
        mut rows,
        mut counts,
    } = sides;
    let BookEntries { part, n } = entries;
    let mut dropped = 0;
    let mut steps = 0..n;
    'walk: loop {
        let Some(i) = steps.next() else {
            BookSides { rows, counts }.write(words, code);
            break 'walk Ok(dropped);
        };
        let e = entry_at(part, ENTRY_BYTES * i);
        if e.action == CLEAR {
            let none = BookSides::empty();
            rows = none.rows;
            counts = none.counts;
            continue 'walk;
        }
        if !is_rank(e.level) {
            break 'walk Err(Refusal::Misfit);
        }
        let Ok(way) = Way::try_from(e.side) else {
            break 'walk Err(Refusal::Misfit);
        };
        let w = e.side as usize;
        let count = counts[w];
        let above = rows[w][e.level.saturating_sub(2)];
        let old = rows[w][e.level - 1];
        if !fits_at(
            way,
            e.action,
            count,
            e.level,
            above.price,
            old.price,
            e.row.price,
        ) {
            break 'walk Err(Refusal::Misfit);
        }
        let applied = apply(rows[w], count, e);
        dropped += u64::from(applied.last.is_some());
        counts[w] = applied.count;
        rows[w] = applied.rows;
    }
}

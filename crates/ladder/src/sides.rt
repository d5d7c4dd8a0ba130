// A side, ten rows by value: what an entry makes of it, and whether it fits (document 01, "Entries, against a side of n rows").
ghost use Rattle.std.specs.Prelude.{◌≡◌, [], ◌∷◌, ◌++◌, ◌+◌, ◌≤◌, ◌<◌, min, take, set, true, cond, ◌||◌, leb, ltb, eqb};
ghost use Rattle.ladder.specs.Message.{depth, new};
ghost use Rattle.ladder.specs.Sides.{better, no_row, new_rows, delete_rows, fits};
ghost use Rattle.ladder.specs.Code.Arrays.{Padded, way_of, fits_at, ten_after, count_after, drops_tenth, applied_by, applied_to, empty_rows, empty_counts};

use super::{Applied, BookSides, CHANGE, DELETE, DEPTH, Entry, NEW, NO_ROW, Row, Way};

// The last place of ten.
pub(crate) const LAST: usize = DEPTH - 1;

impl BookSides {
    // An empty book's.
    #[tactic(auto, unfolding(crate::specs::Words::no_rows))]
    pub fn empty() -> BookSides
        ensures { (result.rows ≡ empty_rows) × (result.counts ≡ empty_counts) }
    {
        BookSides {
            rows: [[NO_ROW; DEPTH]; 2],
            counts: [0; 2],
        }
    }
}

// One word of two: a where c holds, else b.
pub(crate) fn word_if(c: bool, a: u64, b: u64) -> u64
    ensures { result ≡ cond c a b }
{
    if c { a } else { b }
}

// One row of two: a where c holds, else b.
fn row_if(c: bool, a: Row, b: Row) -> Row
    ensures { result ≡ cond c a b }
{
    if c { a } else { b }
}

// A row put in at a place: the rows from there move down, and one pushed to place 11 is dropped.
fn insert_row(rows: [Row; DEPTH], at: usize, row: Row) -> [Row; DEPTH]
    requires { at < depth }
    ensures { result ≡ new_rows (at + 1) row rows }
{
    std::array::from_fn(|i| {
        let stays = row_if(i == at, row, rows[i]);
        row_if(at < i, rows[i.saturating_sub(1)], stays)
    })
}

// A row replaced by another.
fn set_row(rows: [Row; DEPTH], at: usize, row: Row) -> [Row; DEPTH]
    ensures { result ≡ set rows at row }
{
    std::array::from_fn(|i| row_if(i == at, row, rows[i]))
}

// A row taken out: the lower rows move up, and behind them comes a zero row.
fn drop_row(rows: [Row; DEPTH], at: usize) -> [Row; DEPTH]
    requires { at < depth }
    ensures { result ≡ delete_rows (at + 1) rows ++ (no_row ∷ []) }
{
    std::array::from_fn(|i| {
        let below = if i < LAST { rows[i + 1] } else { NO_ROW };
        row_if(at <= i, below, rows[i])
    })
}

// The ten rows of a side after an entry that is new, a change, or else a delete: the one application, for either side. Here, in count_after and in
// fits_at the actions are tested one by one, the new one first: a match tests the highest first, and a message took 3 % longer.
#[tactic(auto, unfolding(crate::specs::Code::Arrays::ten_after, ground::specs::Choice::pick))]
fn rows_after(rows: [Row; DEPTH], e: Entry) -> [Row; DEPTH]
    requires { (1 ≤ e.level) × (e.level ≤ depth) }
    ensures { result ≡ ten_after e rows }
{
    let at = e.level - 1;
    if e.action == NEW {
        return insert_row(rows, at, e.row);
    }
    if e.action == CHANGE {
        return set_row(rows, at, e.row);
    }
    drop_row(rows, at)
}

// The count of a side of n rows after such an entry. That n is at most ten is a clause, here and of what fits: the counts are BookSides' own numbers.
#[tactic(auto, unfolding(crate::specs::Code::Arrays::count_after, ground::specs::Choice::pick))]
fn count_after(n: usize, action: u64) -> usize
    requires { (n ≤ depth) × ((eqb action new || leb 1 n) ≡ true) }
    ensures { result ≡ count_after action n }
{
    if action == NEW {
        return DEPTH.min(n + 1);
    }
    if action == CHANGE {
        return n;
    }
    n - 1
}

// Whether such an entry drops the tenth row of a side of n rows.
#[tactic(auto, unfolding(crate::specs::Code::Arrays::drops_tenth))]
fn drops_tenth(n: usize, action: u64) -> bool
    ensures { result ≡ drops_tenth action n }
{
    action == NEW && DEPTH <= n
}

// An entry applied to a side of n rows that it fits, and the row that it drops.
pub(crate) fn apply(rows: [Row; DEPTH], n: usize, e: Entry) -> Applied
    requires { Padded (record { n = n; rows = rows }) × (fits (way_of e.side) e (take n rows) ≡ true) }
    ensures { applied_by result ≡ applied_to e (take n rows) }
{
    let last = drops_tenth(n, e.action).then_some(rows[LAST]);
    let count = count_after(n, e.action);
    let rows = rows_after(rows, e);
    Applied { rows, count, last }
}

// Whether price a is strictly better than price b.
#[tactic(auto, unfolding(crate::specs::Sides::better))]
pub(crate) fn is_better(way: Way, a: u64, b: u64) -> bool
    ensures { result ≡ better way a b }
{
    match way {
        Way::Bid => b < a,
        Way::Offer => a < b,
    }
}

// Whether a price is strictly worse than that of the row above rank p, where there is one.
fn is_below(way: Way, p: usize, above: u64, price: u64) -> bool
    ensures { result ≡ (leb p 1 || better way above price) }
{
    p <= 1 || is_better(way, above, price)
}

// Whether a price is strictly better than that of the row that stands at rank p of n rows, where there is one.
fn is_above(way: Way, n: usize, p: usize, old: u64, price: u64) -> bool
    ensures { result ≡ (ltb n p || better way price old) }
{
    n < p || is_better(way, price, old)
}

// Whether a new row fits at rank p of n rows.
#[tactic(auto, unfolding(crate::specs::Code::Arrays::fits_at, ground::specs::Choice::pick))]
fn new_fits(way: Way, n: usize, p: usize, above: u64, old: u64, price: u64) -> bool
    requires { n ≤ depth }
    ensures { result ≡ fits_at way new n p above old price }
{
    p <= n + 1 && is_below(way, p, above, price) && is_above(way, n, p, old, price)
}

// Whether an entry fits at rank p of n rows, by the prices of the row above and of the row that stands there.
#[tactic(auto, unfolding(crate::specs::Code::Arrays::fits_at, ground::specs::Choice::pick))]
pub(crate) fn fits_at(
    way: Way,
    action: u64,
    n: usize,
    p: usize,
    above: u64,
    old: u64,
    price: u64,
) -> bool
    requires { n ≤ depth }
    ensures { result ≡ fits_at way action n p above old price }
{
    if action == NEW {
        return new_fits(way, n, p, above, old, price);
    }
    if n < p {
        return false;
    }
    if action == CHANGE {
        return price == old;
    }
    action == DELETE
}

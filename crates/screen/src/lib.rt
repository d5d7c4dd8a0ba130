// The library by plain calls, for the screens: numbers, structs of numbers by value, and slices. The crate screen_c exports them to C.
#![tactic(auto)]

ghost use Rattle.std.specs.Prelude.{◌≡◌};
ghost use Rattle.screen.specs.Promised.{NewSays, ConnectSays, ArriveSays, FrameSays, CutSays, LinkSays, ScrapSays, BadgeSays, WhySays, RowSays, SideSays, StripSays, PasswordSays, VersionSays};
ghost use Rattle.books.specs.Code.Rows.{row_read, side_read};
ghost use Rattle.strips.specs.Reading.{strip_read};
ghost use Rattle.feed.specs.Steps.{lent};
ghost use Rattle.lines.specs.Scraps.{heard_of};
ghost use Rattle.screen.specs.Plain.{link_of, feed_of, plain_feed, plain_given, plain_frame, line_of, plain_line, plain_heard, plain_row, plain_side, plain_strip};
ghost use Rattle.screen.specs.Calls.{plain_silent};

use books::{Level, Side};
use feed::{Feed, Frame, Given, Link};
use ground::Refusal;
use ladder::DEPTH;
use lines::{Heard, Line};
use strips::Shown;

// A feed as numbers: the phase from 0 to 6 in document 01's order, and whole and fresh as 0 (no) or anything else (yes).
#[repr(C)]
#[derive(Clone, Copy)]
pub struct MmdhFeed {
    pub phase: u64,
    pub next: u64,
    pub internal: u64,
    pub heard: u64,
    pub limit: u64,
    pub whole: u64,
    pub fresh: u64,
}

// What a call hands back: the answer, the bytes used, the feed after it, and how many rows were dropped.
#[repr(C)]
#[derive(Clone, Copy)]
pub struct MmdhGiven {
    pub answer: u64,
    pub used: u64,
    pub feed: MmdhFeed,
    pub dropped: u64,
}

// What a frame hands back: the last answer, how many units were accepted, the bytes that they used, the feed after them, and the rows dropped by all.
#[repr(C)]
#[derive(Clone, Copy)]
pub struct MmdhFrame {
    pub answer: u64,
    pub accepted: u64,
    pub used: u64,
    pub feed: MmdhFeed,
    pub dropped: u64,
}

// A line as numbers: its feed, how many bytes wait at the front of its holding buffer, and whether it drops as 0 (no) or anything else (yes).
#[repr(C)]
#[derive(Clone, Copy)]
pub struct MmdhLine {
    pub feed: MmdhFeed,
    pub held: u64,
    pub dropping: u64,
}

// What a line's connect hands back: the answer, and the line after it.
#[repr(C)]
#[derive(Clone, Copy)]
pub struct MmdhLinked {
    pub answer: u64,
    pub line: MmdhLine,
}

// What a scrap hands back: whether there is an answer, the last one, how many units were accepted, the bytes of the scrap used, the line after it, and
// the rows dropped by all its units.
#[repr(C)]
#[derive(Clone, Copy)]
pub struct MmdhHeard {
    pub said: u64,
    pub answer: u64,
    pub accepted: u64,
    pub used: u64,
    pub line: MmdhLine,
    pub dropped: u64,
}

// What reading a row gives.
#[repr(C)]
#[derive(Clone, Copy, Default)]
pub struct MmdhRow {
    pub answer: u64,
    pub price: i64,
    pub quantity: u64,
    pub orders: u64,
}

// What reading a side gives: the answer, how many rows, and the rows, best first.
#[repr(C)]
#[derive(Clone, Copy, Default)]
pub struct MmdhSide {
    pub answer: u64,
    pub count: u64,
    pub row: [Level; DEPTH],
}

// What reading a strip gives: the answer, the flags, and the values, prices signed as sent, 0 where none has come.
#[repr(C)]
#[derive(Clone, Copy, Default)]
pub struct MmdhStrip {
    pub answer: u64,
    pub flags: u64,
    pub nominal: i64,
    pub iep: i64,
    pub iev: u64,
    pub reference: i64,
    pub lower: i64,
    pub upper: i64,
    pub direction: u64,
    pub imbalance: u64,
    pub closing: i64,
}

// The request that last changed the shape of a call or struct that was there before.
const VERSION: u64 = 6;

// The kind of a connect. A function, and no From: neither type is of this crate.
#[tactic(auto, unfolding(crate::specs::Plain::link_of))]
fn link_of(resuming: u64) -> Link
    ensures { result ≡ link_of resuming }
{
    if resuming == 0 {
        Link::Fresh
    } else {
        Link::Resuming
    }
}

// The feed of some numbers.
impl From<MmdhFeed> for Feed {
    ghost from_gives = { λ f r. r ≡ feed_of f };

    #[tactic(auto, unfolding(crate::specs::Plain::yes))]
    fn from(f: MmdhFeed) -> Feed {
        Feed {
            phase: f.phase.into(),
            next: f.next,
            internal: f.internal,
            heard: f.heard,
            limit: f.limit,
            whole: f.whole != 0,
            fresh: f.fresh != 0,
        }
    }
}

// The numbers of a feed.
impl From<Feed> for MmdhFeed {
    ghost from_gives = { λ f r. r ≡ plain_feed f };

    #[tactic(auto, unfolding(crate::specs::Plain::bit))]
    fn from(f: Feed) -> MmdhFeed {
        MmdhFeed {
            phase: f.phase.into(),
            next: f.next,
            internal: f.internal,
            heard: f.heard,
            limit: f.limit,
            whole: f.whole.into(),
            fresh: f.fresh.into(),
        }
    }
}

// The numbers of what a call hands back.
impl From<Given> for MmdhGiven {
    ghost from_gives = { λ g r. r ≡ plain_given g };

    fn from(g: Given) -> MmdhGiven {
        MmdhGiven {
            answer: g.answer,
            used: g.used as u64,
            feed: g.feed.into(),
            dropped: g.dropped,
        }
    }
}

// The numbers of what a frame hands back.
impl From<Frame> for MmdhFrame {
    ghost from_gives = { λ x r. r ≡ plain_frame x };

    fn from(x: Frame) -> MmdhFrame {
        MmdhFrame {
            answer: x.answer,
            accepted: x.accepted,
            used: x.used as u64,
            feed: x.feed.into(),
            dropped: x.dropped,
        }
    }
}

// The line of some numbers.
impl From<MmdhLine> for Line {
    ghost from_gives = { λ l r. r ≡ line_of l };

    #[tactic(auto, unfolding(crate::specs::Plain::yes))]
    fn from(l: MmdhLine) -> Line {
        Line {
            feed: l.feed.into(),
            held: l.held as usize,
            dropping: l.dropping != 0,
        }
    }
}

// The numbers of a line.
impl From<Line> for MmdhLine {
    ghost from_gives = { λ l r. r ≡ plain_line l };

    #[tactic(auto, unfolding(crate::specs::Plain::bit))]
    fn from(l: Line) -> MmdhLine {
        MmdhLine {
            feed: l.feed.into(),
            held: l.held as u64,
            dropping: l.dropping.into(),
        }
    }
}

// The numbers of what a scrap hands back.
impl From<Heard> for MmdhHeard {
    ghost from_gives = { λ x r. r ≡ plain_heard (heard_of x) };

    #[tactic(auto, unfolding(crate::specs::Plain::bit))]
    fn from(x: Heard) -> MmdhHeard {
        MmdhHeard {
            said: x.answer.is_some().into(),
            answer: x.answer.unwrap_or(0),
            accepted: x.accepted,
            used: x.used as u64,
            line: x.line.into(),
            dropped: x.dropped,
        }
    }
}

// A new feed with a silence limit in milliseconds: 19 outside 1 to 600,000.
pub fn mmdh_new(limit: u64) -> MmdhGiven
    ensures { NewSays limit result }
{
    Feed::new(limit).into()
}

// A connect: fresh where `resuming` is 0, else resuming.
pub fn mmdh_connect(feed: MmdhFeed, resuming: u64, time: u64) -> MmdhGiven
    ensures { ConnectSays feed resuming time result }
{
    Feed::from(feed).connect(link_of(resuming), time).into()
}

// An arrival of bytes.
pub fn mmdh_arrive(
    feed: MmdhFeed,
    books: &mut [u64],
    strips: &mut [u64],
    bytes: &[u8],
    time: u64,
) -> MmdhGiven
    ensures { ArriveSays feed (lent books.old strips.old) bytes.now time result (lent books.new strips.new) }
{
    Feed::from(feed).arrive(books, strips, bytes, time).into()
}

// A whole frame's units at once, at most `allowed`. With 0 the feed comes back as it was handed in.
#[tactic(auto, unfolding(crate::specs::Calls::frames_back))]
pub fn mmdh_arrive_frame(
    feed: MmdhFeed,
    books: &mut [u64],
    strips: &mut [u64],
    bytes: &[u8],
    allowed: u64,
    time: u64,
) -> MmdhFrame
    ensures { FrameSays feed (lent books.old strips.old) bytes.now allowed time result (lent books.new strips.new) }
{
    if allowed == 0 {
        return MmdhFrame {
            answer: 0,
            accepted: 0,
            used: 0,
            feed,
            dropped: 0,
        };
    }
    Feed::from(feed)
        .arrive_frame(books, strips, bytes, allowed, time)
        .into()
}

// The two numbers and a message already cut.
pub fn mmdh_arrive_cut(
    feed: MmdhFeed,
    books: &mut [u64],
    strips: &mut [u64],
    seq: u32,
    internal: u32,
    message: &[u8],
    time: u64,
) -> MmdhGiven
    ensures { CutSays feed (lent books.old strips.old) seq internal message.now time result (lent books.new strips.new) }
{
    Feed::from(feed)
        .arrive_cut(books, strips, seq, internal, message, time)
        .into()
}

// A line's connect, with its holding buffer: fresh where `resuming` is 0, else resuming. Where it is refused the line comes back as it was handed in.
#[tactic(auto, unfolding(crate::specs::Calls::linked_back))]
pub fn mmdh_line_connect(line: MmdhLine, hold: &[u8], resuming: u64, time: u64) -> MmdhLinked
    ensures { LinkSays line hold.now resuming time result }
{
    let linked = Line::from(line).connect(hold, link_of(resuming), time);
    if linked.answer == 0 {
        return MmdhLinked {
            answer: 0,
            line: linked.line.into(),
        };
    }
    MmdhLinked {
        answer: linked.answer,
        line,
    }
}

// A scrap that is not looked at: the line as it was handed in, and so many of its bytes used.
fn silent(line: MmdhLine, used: usize) -> MmdhHeard
    ensures { result ≡ plain_silent used line }
{
    MmdhHeard {
        said: 0,
        answer: 0,
        accepted: 0,
        used: used as u64,
        line,
        dropped: 0,
    }
}

// A scrap of a line, of which at most `allowed` units are worked on. With 0 allowed, and where the line drops, it comes back as it was handed in.
#[tactic(auto, unfolding(crate::specs::Calls::hears_back, ground::specs::Choice::first, crate::specs::Plain::yes))]
pub fn mmdh_line_scrap(
    line: MmdhLine,
    books: &mut [u64],
    strips: &mut [u64],
    hold: &mut [u8],
    scrap: &[u8],
    allowed: u64,
    time: u64,
) -> MmdhHeard
    ensures { ScrapSays line (lent books.old strips.old) hold.old scrap.now allowed time result (lent books.new strips.new) hold.new }
{
    if allowed == 0 {
        return silent(line, 0);
    }
    if line.dropping != 0 {
        return silent(line, scrap.len());
    }
    Line::from(line)
        .scrap(books, strips, hold, scrap, allowed, time)
        .into()
}

// What reading a row gives, as numbers.
impl From<Result<Level, Refusal>> for MmdhRow {
    ghost from_gives = { λ x r. r ≡ plain_row (row_read x) };

    fn from(x: Result<Level, Refusal>) -> MmdhRow {
        match x {
            Ok(level) => MmdhRow {
                answer: 0,
                price: level.price,
                quantity: level.quantity,
                orders: level.orders,
            },
            Err(refusal) => MmdhRow {
                answer: refusal.into(),
                ..MmdhRow::default()
            },
        }
    }
}

// What reading a side gives, as numbers.
impl From<Result<Side, Refusal>> for MmdhSide {
    ghost from_gives = { λ x r. r ≡ plain_side (side_read x) };

    fn from(x: Result<Side, Refusal>) -> MmdhSide {
        match x {
            Ok(side) => {
                // A name of its own: a literal with an array straight out of another value's field gets no proof.
                let row = side.rows;
                MmdhSide {
                    answer: 0,
                    count: side.count,
                    row,
                }
            }
            Err(refusal) => MmdhSide {
                answer: refusal.into(),
                ..MmdhSide::default()
            },
        }
    }
}

// What reading a strip gives, as numbers.
impl From<Result<Shown, Refusal>> for MmdhStrip {
    ghost from_gives = { λ x r. r ≡ plain_strip (strip_read x) };

    fn from(x: Result<Shown, Refusal>) -> MmdhStrip {
        match x {
            Ok(shown) => MmdhStrip {
                answer: 0,
                flags: shown.flags,
                nominal: shown.nominal,
                iep: shown.iep,
                iev: shown.iev,
                reference: shown.reference,
                lower: shown.lower,
                upper: shown.upper,
                direction: shown.direction,
                imbalance: shown.imbalance,
                closing: shown.closing,
            },
            Err(refusal) => MmdhStrip {
                answer: refusal.into(),
                ..MmdhStrip::default()
            },
        }
    }
}

// A row by code, side and rank.
pub fn mmdh_read_row(table: &[u64], code: u64, side: u64, rank: u64) -> MmdhRow
    ensures { RowSays table.now code side rank result }
{
    books::read_row(table, code, side, rank).into()
}

// All rows of a side at once, by code and side.
pub fn mmdh_read_side(table: &[u64], code: u64, side: u64) -> MmdhSide
    ensures { SideSays table.now code side result }
{
    books::read_side(table, code, side).into()
}

// A strip by its code.
pub fn mmdh_read_strip(strips: &[u64], code: u64) -> MmdhStrip
    ensures { StripSays strips.now code result }
{
    strips::read_strip(strips, code).into()
}

// A new password under an edition (111 or 136), with the last passwords: their lengths, and their bytes one after the other. 0 passes, 23 no history,
// 15 another edition, else the first item that fails: 1 length, 2 upper, 3 lower, 4 digit, 5 special, 6 history.
pub fn mmdh_password(edition: u64, password: &[u8], lengths: &[u64], history: &[u8]) -> u64
    ensures { PasswordSays edition password.now lengths.now history.now result }
{
    password::asked(edition, password, lengths, history)
}

// The shapes of these calls, by a number that a caller compares with the one it was built with.
pub fn mmdh_version() -> u64
    ensures { VersionSays result }
{
    VERSION
}

// The badge at a time: 1 green, 2 filling, 0 stale.
pub fn mmdh_badge(phase: u64, heard: u64, limit: u64, time: u64) -> u64
    ensures { BadgeSays phase heard limit time result }
{
    feed::badge_asked(phase, heard, limit, time)
}

// Why the badge is what it is at a time: 0 live, 1 new, 2 key, 3 logon, 4 refresh, 5 silent, 6 early, 7 lost, 8 closed, 9 limit.
pub fn mmdh_why(phase: u64, heard: u64, limit: u64, time: u64) -> u64
    ensures { WhySays phase heard limit time result }
{
    feed::why_asked(phase, heard, limit, time)
}

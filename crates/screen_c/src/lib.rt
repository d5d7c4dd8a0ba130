// The calls of the crate screen, exported to C: plain C calls with numbers, structs of numbers by value, and slices as pointer and length.
#![tactic(auto)]

ghost use Rattle.screen.specs.Promised.{NewSays, ConnectSays, ArriveSays, FrameSays, CutSays, LinkSays, ScrapSays, BadgeSays, WhySays, RowSays, SideSays, StripSays, PasswordSays, VersionSays};
ghost use Rattle.feed.specs.Steps.{lent};

use screen::{
    MmdhFeed, MmdhFrame, MmdhGiven, MmdhHeard, MmdhLine, MmdhLinked, MmdhRow, MmdhSide, MmdhStrip,
};

// A new feed with a silence limit in milliseconds: 19 outside 1 to 600,000.
#[unsafe(no_mangle)]
pub extern "C" fn mmdh_new(limit: u64) -> MmdhGiven
    ensures { NewSays limit result }
{
    screen::mmdh_new(limit)
}

// A connect: fresh where `resuming` is 0, else resuming.
#[unsafe(no_mangle)]
pub extern "C" fn mmdh_connect(feed: MmdhFeed, resuming: u64, time: u64) -> MmdhGiven
    ensures { ConnectSays feed resuming time result }
{
    screen::mmdh_connect(feed, resuming, time)
}

// An arrival of bytes.
#[unsafe(no_mangle)]
pub extern "C" fn mmdh_arrive(
    feed: MmdhFeed,
    books: &mut [u64],
    strips: &mut [u64],
    bytes: &[u8],
    time: u64,
) -> MmdhGiven
    ensures { ArriveSays feed (lent books.old strips.old) bytes.now time result (lent books.new strips.new) }
{
    screen::mmdh_arrive(feed, books, strips, bytes, time)
}

// A whole frame's units at once, at most `allowed`. With 0 the feed comes back as it was handed in.
#[unsafe(no_mangle)]
pub extern "C" fn mmdh_arrive_frame(
    feed: MmdhFeed,
    books: &mut [u64],
    strips: &mut [u64],
    bytes: &[u8],
    allowed: u64,
    time: u64,
) -> MmdhFrame
    ensures { FrameSays feed (lent books.old strips.old) bytes.now allowed time result (lent books.new strips.new) }
{
    screen::mmdh_arrive_frame(feed, books, strips, bytes, allowed, time)
}

// The two numbers and a message already cut.
#[unsafe(no_mangle)]
pub extern "C" fn mmdh_arrive_cut(
    feed: MmdhFeed,
    books: &mut [u64],
    strips: &mut [u64],
    seq: u32,
    internal: u32,
    message: &[u8],
    time: u64,
) -> MmdhGiven
    ensures { CutSays feed (lent books.old strips.old) seq internal message.now time result (lent books.new strips.new) }
{
    screen::mmdh_arrive_cut(feed, books, strips, seq, internal, message, time)
}

// A line's connect, with its holding buffer: fresh where `resuming` is 0, else resuming. Where it is refused the line comes back as it was handed in.
#[unsafe(no_mangle)]
pub extern "C" fn mmdh_line_connect(
    line: MmdhLine,
    hold: &[u8],
    resuming: u64,
    time: u64,
) -> MmdhLinked
    ensures { LinkSays line hold.now resuming time result }
{
    screen::mmdh_line_connect(line, hold, resuming, time)
}

// A scrap of a line, of which at most `allowed` units are worked on. With 0 allowed, and where the line drops, it comes back as it was handed in.
#[unsafe(no_mangle)]
pub extern "C" fn mmdh_line_scrap(
    line: MmdhLine,
    books: &mut [u64],
    strips: &mut [u64],
    hold: &mut [u8],
    scrap: &[u8],
    allowed: u64,
    time: u64,
) -> MmdhHeard
    ensures { ScrapSays line (lent books.old strips.old) hold.old scrap.now allowed time result (lent books.new strips.new) hold.new }
{
    screen::mmdh_line_scrap(line, books, strips, hold, scrap, allowed, time)
}

// A row by code, side and rank.
#[unsafe(no_mangle)]
pub extern "C" fn mmdh_read_row(table: &[u64], code: u64, side: u64, rank: u64) -> MmdhRow
    ensures { RowSays table.now code side rank result }
{
    screen::mmdh_read_row(table, code, side, rank)
}

// All rows of a side at once, by code and side.
#[unsafe(no_mangle)]
pub extern "C" fn mmdh_read_side(table: &[u64], code: u64, side: u64) -> MmdhSide
    ensures { SideSays table.now code side result }
{
    screen::mmdh_read_side(table, code, side)
}

// A strip by its code.
#[unsafe(no_mangle)]
pub extern "C" fn mmdh_read_strip(strips: &[u64], code: u64) -> MmdhStrip
    ensures { StripSays strips.now code result }
{
    screen::mmdh_read_strip(strips, code)
}

// A new password under an edition (111 or 136), with the last passwords: their lengths, and their bytes one after the other. 0 passes, 23 no history,
// 15 another edition, else the first item that fails: 1 length, 2 upper, 3 lower, 4 digit, 5 special, 6 history.
#[unsafe(no_mangle)]
pub extern "C" fn mmdh_password(
    edition: u64,
    password: &[u8],
    lengths: &[u64],
    history: &[u8],
) -> u64
    ensures { PasswordSays edition password.now lengths.now history.now result }
{
    screen::mmdh_password(edition, password, lengths, history)
}

// The shapes of these calls, by a number that a caller compares with the one it was built with.
#[unsafe(no_mangle)]
pub extern "C" fn mmdh_version() -> u64
    ensures { VersionSays result }
{
    screen::mmdh_version()
}

// The badge at a time: 1 green, 2 filling, 0 stale.
#[unsafe(no_mangle)]
pub extern "C" fn mmdh_badge(phase: u64, heard: u64, limit: u64, time: u64) -> u64
    ensures { BadgeSays phase heard limit time result }
{
    screen::mmdh_badge(phase, heard, limit, time)
}

// Why the badge is what it is at a time: 0 live, 1 new, 2 key, 3 logon, 4 refresh, 5 silent, 6 early, 7 lost, 8 closed, 9 limit.
#[unsafe(no_mangle)]
pub extern "C" fn mmdh_why(phase: u64, heard: u64, limit: u64, time: u64) -> u64
    ensures { WhySays phase heard limit time result }
{
    screen::mmdh_why(phase, heard, limit, time)
}

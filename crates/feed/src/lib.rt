// One feed: its phases, the messages it takes in each, connects, arrivals and the badge (document 01, "The feed", "Answer numbers").
#![tactic(auto)]

mod arrivals;
mod badges;
mod changes;
mod frames;
mod links;
mod messages;
mod phases;
mod reasons;
mod sessions;
mod verdicts;

pub use badges::badge_asked;
pub use reasons::why_asked;

// The phases, in the order in which they count from 0.
#[derive(Clone, Copy, PartialEq, Eq)]
pub enum Phase {
    Idle,
    WaitKey,
    WaitLogon,
    Refreshing,
    Live,
    Lost,
    Closed,
}

// A feed. `next` is the next SeqNum, `internal` the last internal number, `heard` the last heard time, `limit` the silence limit;
// `fresh` tells whether the last accepted connect was fresh.
#[derive(Clone, Copy, PartialEq, Eq)]
pub struct Feed {
    pub phase: Phase,
    pub next: u64,
    pub internal: u64,
    pub heard: u64,
    pub limit: u64,
    pub whole: bool,
    pub fresh: bool,
}

// A message that nothing refuses: seen before, so that its number alone counts; or one for the feed and its tables to take.
#[derive(Clone, Copy, PartialEq, Eq)]
pub(crate) enum Turn {
    Seen,
    Taken,
}

// What a call hands back: document 01's answer number, the bytes used, the feed after it, and how many rows were dropped. A number and no Result: specs/ has
// theorems on it, and C reads it.
#[derive(Clone, Copy, PartialEq, Eq)]
pub struct Given {
    pub answer: u64,
    pub used: usize,
    pub feed: Feed,
    pub dropped: u64,
}

// What a frame's units come to: the last answer, a number as in Given, how many were accepted, the bytes that they used, the feed after them, and the rows
// dropped by all.
#[derive(Clone, Copy, PartialEq, Eq)]
pub struct Frame {
    pub answer: u64,
    pub accepted: u64,
    pub used: usize,
    pub feed: Feed,
    pub dropped: u64,
}

// A connect is fresh or resuming.
#[derive(Clone, Copy, PartialEq, Eq)]
pub enum Link {
    Fresh,
    Resuming,
}

// The badges, in the order of their numbers from 0.
#[derive(Clone, Copy, PartialEq, Eq)]
pub enum Badge {
    Stale,
    Green,
    Filling,
}

// Why a badge is what it is, in the order of the numbers from 0: live; never connected; waiting for the key, for the logon, for the refresh; silent
// beyond the limit; asked of before the last heard time; lost; closed; a limit outside 1 to 600,000.
#[derive(Clone, Copy, PartialEq, Eq)]
pub(crate) enum Reason {
    Live,
    Unconnected,
    Key,
    Logon,
    Refresh,
    Silent,
    Early,
    Lost,
    Closed,
    Limit,
}

// The session's messages: 1105, 1102, 1103, 1202, 203; and 1101 and 1201, which only the client sends.
#[derive(Clone, Copy, PartialEq, Eq)]
pub enum Session {
    SendKey,
    Logon,
    Logout,
    Refresh,
    Complete,
    Request,
}

// The market messages: type 53; those of the price strip; and those that are passed over.
#[derive(Clone, Copy, PartialEq, Eq)]
pub enum Datum {
    Book,
    Strip,
    Other,
}

#[derive(Clone, Copy, PartialEq, Eq)]
pub enum Kind {
    Session(Session),
    Market(Datum),
}

// What a logon's listed status does: Live; Refreshing; stays; Closed.
#[derive(Clone, Copy, PartialEq, Eq)]
pub enum Status {
    Opens,
    Refills,
    Stays,
    Closes,
}

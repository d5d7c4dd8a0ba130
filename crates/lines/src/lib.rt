// Scraps of a line: what is no whole unit yet waits in a lent holding buffer (document 02, request 5).
#![tactic(auto)]

mod looks;
mod scraps;

use feed::Feed;

// The least that a holding buffer is for: a header and MsgSize.
const LEAST_HOLD: usize = wire::HEADER_BYTES + 2;

// What has come asks for: more bytes; an answer of 22; a finished unit of so many bytes to go through the feed. Three names, since a Result of an Option
// would name none of them.
#[derive(Clone, Copy)]
pub enum Look {
    Waits,
    TooLong,
    Finished(usize),
}

// A feed, how many bytes wait at the front of its holding buffer, and whether what comes is dropped. A count and a flag: C hands both in and gets them back
// (the screen's line_of and plain_line), and the buffer is lent with each call.
#[derive(Clone, Copy)]
pub struct Line {
    pub feed: Feed,
    pub held: usize,
    pub dropping: bool,
}

// What a connect hands back: document 01's answer number, or 22, and the line after it. No Result: the answer is C's number, and a refusal hands its line
// back too.
#[derive(Clone, Copy)]
pub struct Linked {
    pub answer: u64,
    pub line: Line,
}

// What a scrap comes to: the last answer, if there is one, how many units were accepted, the bytes of the scrap used, the line after it, and the rows
// dropped by all its units.
#[derive(Clone, Copy)]
pub struct Heard {
    pub answer: Option<u64>,
    pub accepted: u64,
    pub used: usize,
    pub line: Line,
    pub dropped: u64,
}

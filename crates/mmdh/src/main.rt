// The program (document 01, example 10): one connection's bytes from standard input, then the books and how the run ended.
#![tactic(auto)]

ghost use Rattle.std.specs.Prelude.{◌≡◌, ◌+◌, ◌≤◌, ◌<◌, false, cond};
ghost use Rattle.feed.specs.Steps.{accepted};
ghost use Rattle.feed.specs.Program.{connection};
ghost use Rattle.mmdh.specs.Code.Runs.{Started, Called, Refilled, Turned, Drained, Wrote};

use feed::{Feed, Link};
use held::Held;
use output::Output;
use std::io::{Stdin, Write};

mod held;
mod output;

// The words of the books, how many slots they have, and the words of as many strips.
const TABLE_WORDS: usize = 8192;

const SLOTS: usize = TABLE_WORDS / ladder::BOOK_WORDS;

const STRIPS_WORDS: usize = SLOTS * strips::STRIP_WORDS;

// How far a run has come: the last answer, the units accepted, the feed with the words of its books and strips, the bytes that are left, and whether the run is
// over (a bool, as no answer says it alone: at a 3 the run may go on, and all else means the same once it is over).
#[derive(Clone, Copy)]
pub struct Run {
    pub answer: u64,
    pub units: u64,
    pub feed: Feed,
    pub table: [u64; TABLE_WORDS],
    pub strips: [u64; STRIPS_WORDS],
    pub held: Held,
    pub over: bool,
}

impl Run {
    // A run before its first turn.
    fn new() -> Run
        ensures { Started result }
    {
        Run {
            answer: 0,
            units: 0,
            feed: connected(),
            table: [0; TABLE_WORDS],
            strips: [0; STRIPS_WORDS],
            held: Held::new(),
            over: false,
        }
    }

    // One call at the bytes that are left.
    fn call(&mut self)
        requires { self.old.units < 18446744073709551615 }
        ensures { Called self.old self.new }
    {
        let given = self
            .feed
            .arrive(&mut self.table, &mut self.strips, self.held.left(), 0);
        self.held.consume(given.used);
        self.answer = given.answer;
        self.units = one_more(self.units, given.answer);
        self.feed = given.feed;
        self.over = !given.is_accepted();
    }

    // More is wanted: the run is over where none comes, or where there is no room for it.
    fn more(&mut self, input: Stdin)
        ensures { Refilled self.old self.new }
    {
        self.over = self.held.read(input) == 0;
    }

    // One turn: a call, and more bytes where it is answered More.
    #[tactic(auto, using(crate::proofs::Turns::turn_called))]
    fn turn(&mut self, input: Stdin)
        requires { self.old.units < 18446744073709551615 }
        ensures { Turned 1 self.old self.new }
    {
        self.call();
        if self.answer == 3 {
            self.more(input);
        }
    }

    // Turns until the run is over, or until there were more of them than any input can ask for.
    #[tactic(auto, using(crate::proofs::Turns::turning))]
    fn follow(&mut self, input: Stdin)
        requires { (self.old.units ≡ 0) × (self.old.over ≡ false) }
        ensures { Turned 9223372036854775808 self.old self.new }
    {
        for _ in 0..9223372036854775808u64 {
            if self.over {
                return;
            }
            self.turn(input);
        }
    }

    // Turns with no more bytes, until the run is over.
    #[tactic(auto, using(crate::proofs::Turns::draining))]
    fn drain(&mut self)
        requires { self.old.units ≤ 9223372036854775808 }
        ensures { Drained self.old self.new }
    {
        while !self.over {
            self.call();
        }
    }
}

// The feed of a fresh connect at time 0, with the limit 1,000.
#[tactic(auto, using(crate::proofs::Laws::connects))]
fn connected() -> Feed
    ensures { result ≡ connection.feed }
{
    let new = Feed::new(1000);
    new.feed.connect(Link::Fresh, 0).feed
}

// One more unit where an answer accepts it: the answer alone, where no Given is at hand to ask.
fn one_more(units: u64, answer: u64) -> u64
    requires { units < 18446744073709551615 }
    ensures { result ≡ cond (accepted answer) (units + 1) units }
{
    if answer <= 2 { units + 1 } else { units }
}

// The run over standard input with 128 slots of each table: puts what it prints into an empty text.
fn program(input: Stdin, out: &mut Output)
    requires { out.old.len ≡ 0 }
    ensures { Wrote out.new.bytes out.new.len }
{
    let mut run = Run::new();
    run.follow(input);
    run.drain();
    out.put_all(&run.table, run.answer, run.units);
}

// Runs, and writes what is printed; a message where it cannot be written.
fn main(rt: HostRuntime) {
    let mut out = Output::new();
    program(rt.stdin(), &mut out);
    let written = rt.stdout().write_all(out.text());
    if written.is_err() {
        let _ = rt
            .stderr()
            .write_all(b"mmdh: cannot write to standard output\n");
    }
}

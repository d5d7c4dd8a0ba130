// A line's connect, and its scraps.
ghost use Rattle.std.specs.Prelude.{◌≡◌, ◌+◌, ◌≤◌, ◌<◌, min, length};
ghost use Rattle.feed.specs.Steps.{lent};
ghost use Rattle.lines.specs.Scraps.{heard_of, holding, hearing, silent as silent_of, waits as waits_of, refused as refused_of, settled, looked, once as once_of, onward as onward_of, goes_on};
ghost use Rattle.lines.specs.Promised.{ConnectSays, ScrapSays};

use super::looks::look_at;
use super::{Heard, LEAST_HOLD, Line, Linked, Look};
use feed::{Given, Link};
use ground::Refusal;

// A refusal: nothing waits, and what is left of the scrap is dropped.
fn refused(given: Given, left: usize) -> Heard
    ensures { heard_of result ≡ refused_of given left }
{
    Heard {
        answer: Some(given.answer),
        accepted: 0,
        used: left,
        line: Line {
            feed: given.feed,
            held: 0,
            dropping: true,
        },
        dropped: 0,
    }
}

// Bytes written over by as many others, in a loop: copy_from_slice calls memmove, and of names from outside the archive for C needs memset alone.
fn overwrite(into: &mut [u8], bytes: &[u8])
    requires { length into.old ≡ length bytes.now }
    ensures { into.new ≡ bytes.now }
{
    for (i, &byte) in bytes.iter().enumerate() {
        into[i] = byte;
    }
}

// A unit of n bytes that has been through the feed: where it is accepted, what waits behind it moves to the front.
#[tactic(auto, using(crate::proofs::Copies::moved_none, crate::proofs::Copies::moved_up_lem), unfolding(crate::specs::Scraps::settled))]
fn settle(given: Given, n: usize, held: usize, left: usize, hold: &mut [u8]) -> Heard
    requires { held ≤ length hold.old }
    ensures { holding (heard_of result) hold.new ≡ settled given n held left hold.old }
{
    if !given.is_accepted() {
        return refused(given, left);
    }
    if n < held {
        hold.copy_within(n..held, 0);
    }
    Heard {
        answer: Some(given.answer),
        accepted: 1,
        used: n.saturating_sub(held),
        line: Line {
            feed: given.feed,
            held: held.saturating_sub(n),
            dropping: false,
        },
        dropped: given.dropped,
    }
}

// One line.
impl Line {
    // No answer, with so many bytes of the scrap used.
    fn silent(self, used: usize) -> Heard
        ensures { heard_of result ≡ silent_of used self }
    {
        Heard {
            answer: None,
            accepted: 0,
            used,
            line: self,
            dropped: 0,
        }
    }

    // All of the scrap waits.
    #[tactic(auto, using(crate::proofs::Copies::put_behind))]
    fn waits(self, hold: &mut [u8], scrap: &[u8]) -> Heard
        requires { self.held + length scrap.now ≤ length hold.old }
        ensures { holding (heard_of result) hold.new ≡ waits_of self hold.old scrap.now }
    {
        let held = self.held + scrap.len();
        overwrite(&mut hold[self.held..held], scrap);
        let line = Line {
            held,
            dropping: false,
            ..self
        };
        line.silent(scrap.len())
    }

    // A finished unit of n bytes goes through the feed: out of the scrap where none of it has waited, else out of the buffer, where it is put together. The
    // slices are parameters and no struct's fields: each contract would have to say besides that a field is still the caller's slice, and two fields lent in
    // one call get no generated proof.
    fn finish(
        self,
        books: &mut [u64],
        strips: &mut [u64],
        hold: &mut [u8],
        scrap: &[u8],
        n: usize,
        time: u64,
    ) -> Heard
        requires { (self.held ≤ length hold.old) × (n ≤ length hold.old) × (n ≤ self.held + length scrap.now) }
        ensures { hearing (heard_of result) (lent books.new strips.new) hold.new ≡ looked (Look.Finished n) self (lent books.old strips.old) hold.old scrap.now time }
    {
        let given = if self.held == 0 {
            self.feed.arrive(books, strips, &scrap[..n], time)
        } else {
            if self.held < n {
                overwrite(&mut hold[self.held..n], &scrap[..n - self.held]);
            }
            self.feed.arrive(books, strips, &hold[..n], time)
        };
        settle(given, n, self.held, scrap.len(), hold)
    }

    // At most one unit of what waits and the scrap behind it.
    #[tactic(auto, using(crate::proofs::Cases::rooms), unfolding(crate::specs::Scraps::once, crate::specs::Scraps::looked))]
    fn once(
        self,
        books: &mut [u64],
        strips: &mut [u64],
        hold: &mut [u8],
        scrap: &[u8],
        time: u64,
    ) -> Heard
        ensures { hearing (heard_of result) (lent books.new strips.new) hold.new ≡ once_of self (lent books.old strips.old) hold.old scrap.now time }
    {
        if self.dropping {
            return self.silent(scrap.len());
        }
        match look_at(hold, self.held, scrap) {
            Look::Waits => self.waits(hold, scrap),
            Look::TooLong => refused(self.feed.overrun(time), scrap.len()),
            Look::Finished(n) => self.finish(books, strips, hold, scrap, n, time),
        }
    }

    // A connect, fresh or resuming, with a holding buffer, of which no byte is written.
    #[tactic(auto, unfolding(crate::specs::Scraps::links, ground::specs::Choice::first))]
    pub fn connect(self, hold: &[u8], link: Link, time: u64) -> Linked
        ensures { ConnectSays self hold.now link time result }
    {
        let given = self.feed.connect(link, time);
        if !given.is_accepted() {
            return Linked {
                answer: given.answer,
                line: self,
            };
        }
        if hold.len() < LEAST_HOLD {
            return Linked {
                answer: Refusal::TooLong.into(),
                line: self,
            };
        }
        Linked {
            answer: given.answer,
            line: Line {
                feed: given.feed,
                held: 0,
                dropping: false,
            },
        }
    }

    // A scrap: its finished units, at most `allowed`, go through the feed until one is refused; where no more are finished, the rest waits.
    #[tactic(auto, using(crate::proofs::Courses::courses))]
    pub fn scrap(
        self,
        books: &mut [u64],
        strips: &mut [u64],
        hold: &mut [u8],
        scrap: &[u8],
        allowed: u64,
        time: u64,
    ) -> Heard
        ensures { ScrapSays self (lent books.old strips.old) hold.old scrap.now allowed time result (lent books.new strips.new) hold.new }
    {
        let mut heard = self.silent(0);
        for _ in 0..allowed {
            heard = heard.onward(books, strips, hold, scrap, time);
            if !heard.goes_on() {
                break;
            }
        }
        heard
    }
}

// Where a scrap stands.
impl Heard {
    // Once more, at the bytes of the scrap that are left.
    #[tactic(auto, unfolding(crate::specs::Scraps::onward))]
    fn onward(
        self,
        books: &mut [u64],
        strips: &mut [u64],
        hold: &mut [u8],
        scrap: &[u8],
        time: u64,
    ) -> Heard
        requires { (self.used ≤ length scrap.now) × (self.accepted < 18446744073709551615) × (self.dropped + min self.line.held (length hold.old) ≤ length hold.old + self.used) }
        ensures { hearing (heard_of result) (lent books.new strips.new) hold.new ≡ onward_of scrap.now time (hearing (heard_of self) (lent books.old strips.old) hold.old) }
    {
        let one = self
            .line
            .once(books, strips, hold, &scrap[self.used..], time);
        Heard {
            accepted: self.accepted + one.accepted,
            used: self.used + one.used,
            dropped: self.dropped + one.dropped,
            ..one
        }
    }

    // Whether a unit was accepted.
    #[tactic(auto, unfolding(crate::specs::Scraps::goes_on))]
    fn goes_on(self) -> bool
        ensures { result ≡ goes_on (heard_of self) }
    {
        matches!(self.answer, Some(0..=2))
    }
}

// Arrivals of bytes and of messages already cut: judge, then act on the tables.
ghost use Rattle.std.specs.Prelude.{◌≡◌, false, cond, ◌≤◌};
ghost use Rattle.ground.specs.Refusals.{answer_of};
ghost use Rattle.ladder.specs.Code.Arrays.{dropped_of};
ghost use Rattle.feed.specs.Messages.{wrong_size};
ghost use Rattle.feed.specs.Feeds.{in_phase, whole_is};
ghost use Rattle.feed.specs.Events.{cleared_tables, Cut};
ghost use Rattle.feed.specs.Promised.{ArriveSays, CutSays, OverrunSays};
ghost use Rattle.feed.specs.Answers.{last_seq_num};
ghost use Rattle.feed.specs.Steps.{advanced as advanced_at, counted, accepted, lent, state_of, out_of};
ghost use Rattle.feed.specs.Code.Judging.{answered, dropped_is, on_tables};

use super::messages::Arrival;
use super::{Datum, Feed, Given, Kind, Phase, Turn};
use ground::Refusal;
use wire::{Cursor, Unit};

// Every slot of both tables emptied. The two slices are parameters and no struct's fields: of a field each contract would have to say besides that it is
// the caller's slice, and as long as it was.
fn clear(books: &mut [u64], strips: &mut [u64])
    ensures { lent books.new strips.new ≡ cleared_tables (lent books.old strips.old) }
{
    books::clear(books);
    strips::clear(strips);
}

// What arrives, and all that is written.
impl Feed {
    // A market message, as its table answers it: taken, with so many rows dropped, or Lost and not whole.
    fn market(self, taken: Result<u64, Refusal>, internal: u32, time: u64) -> Given
        requires { self.next ≤ last_seq_num }
        ensures { result ≡ dropped_is (dropped_of taken) (answered (answer_of taken) (cond (accepted (answer_of taken)) (advanced_at time (counted (Kind.Market Datum.Other) internal self)) (in_phase Phase.Lost (whole_is false self)))) }
    {
        match taken {
            Ok(dropped) => self.numbered(internal, time).kept(0).dropping(dropped),
            Err(refusal) => self.spoilt(refusal.into()),
        }
    }

    // A message that the feed leaves to the tables: what they make of it, and of the feed. All that is written is written here.
    #[inline(always)]
    #[tactic(auto, using(crate::proofs::Rows::rows))]
    fn act(self, books: &mut [u64], strips: &mut [u64], arrival: Arrival<'_>, time: u64) -> Given
        requires { (wrong_size arrival.message.now ≡ false) × (self.next ≤ last_seq_num) }
        ensures { out_of result (lent books.new strips.new) ≡ on_tables (state_of self (lent books.old strips.old)) (Cut self.next arrival.entry.internal arrival.entry.message.now time) }
    {
        let message = arrival.message;
        match arrival.kind {
            Kind::Session(session) => {
                if self.is_clearing(session, message) {
                    clear(books, strips);
                }
                self.done(session, message, time).kept(0)
            }
            Kind::Market(datum) => match datum {
                Datum::Book => {
                    self.market(books::take(books, message, time), arrival.internal, time)
                }
                Datum::Strip => {
                    let taken = strips::take(strips, message).and(Ok(0));
                    self.market(taken, arrival.internal, time)
                }
                Datum::Other => self.numbered(arrival.internal, time).kept(2),
            },
        }
    }

    // The two numbers and a message already cut: never More, never a heartbeat, no bytes used. The verdict and what is done are drawn in, and so is an
    // arrival into each call of it: apart they take seventy instructions a message more.
    #[tactic(auto, using(crate::proofs::Rows::rows))]
    pub fn arrive_cut(
        self,
        books: &mut [u64],
        strips: &mut [u64],
        seq: u32,
        internal: u32,
        message: &[u8],
        time: u64,
    ) -> Given
        ensures { CutSays self (lent books.old strips.old) seq internal message.now time result (lent books.new strips.new) }
    {
        let arrival = Arrival::new(seq, internal, message);
        match self.verdict(arrival, time) {
            Ok(Turn::Seen) => self.advanced(time).kept(1),
            Ok(Turn::Taken) => self.act(books, strips, arrival, time),
            Err(refusal) => self.refused(refusal),
        }
    }

    // An arrival of bytes.
    #[inline(always)]
    #[tactic(auto, using(crate::proofs::Rows::rows))]
    pub fn arrive(self, books: &mut [u64], strips: &mut [u64], bytes: &[u8], time: u64) -> Given
        ensures { ArriveSays self (lent books.old strips.old) bytes.now time result (lent books.new strips.new) }
    {
        let front = Cursor { at: 0 };
        let unit = front.read(bytes);
        let Unit::Message {
            seq,
            internal,
            size,
        } = unit
        else {
            if let Unit::Heartbeat = unit {
                return match self.hears(time) {
                    Ok(()) => self.heard_at(time).kept(0).using(wire::HEADER_BYTES),
                    Err(refusal) => self.refused(refusal),
                };
            }
            return self.refused(self.hears(time).err().unwrap_or(Refusal::More));
        };
        let message = front.message(bytes, size);
        self.arrive_cut(books, strips, seq, internal, message, time)
            .using(wire::HEADER_BYTES + size)
    }

    // What is longer than the holding buffer: 10, 11, or 22 and Lost.
    #[tactic(auto, using(crate::proofs::Rows::rows))]
    pub fn overrun(self, time: u64) -> Given
        ensures { OverrunSays self time result }
    {
        self.refused(self.hears(time).err().unwrap_or(Refusal::TooLong))
    }
}

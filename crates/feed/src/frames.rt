// A whole frame's units at once: single arrivals, one behind the other.
ghost use Rattle.std.specs.Prelude.{◌≡◌, ◌≤◌, ◌<◌, length};
ghost use Rattle.feed.specs.Steps.{lent};
ghost use Rattle.feed.specs.Frames.{framed_of, onward as onward_in};
ghost use Rattle.feed.specs.Promised.{FrameSays};

use super::{Feed, Frame};

// Where a frame stands.
impl Frame {
    // A single arrival at the bytes that the ones before have left.
    fn onward(self, books: &mut [u64], strips: &mut [u64], bytes: &[u8], time: u64) -> Frame
        requires { (self.used ≤ length bytes.now) × (self.accepted < 18446744073709551615) × (self.dropped ≤ self.used) }
        ensures { framed_of result (lent books.new strips.new) ≡ onward_in bytes.now time (framed_of self (lent books.old strips.old)) }
    {
        let given = self.feed.arrive(books, strips, &bytes[self.used..], time);
        Frame {
            answer: given.answer,
            // The answer, and no is_accepted: with the call, what this returns gets no proof.
            accepted: self.accepted + u64::from(given.answer <= 2),
            used: self.used + given.used,
            feed: given.feed,
            dropped: self.dropped + given.dropped,
        }
    }
}

impl Feed {
    // At most `allowed` units from the front of the bytes, until one is not accepted.
    #[tactic(auto, using(crate::proofs::Framing::frames))]
    pub fn arrive_frame(
        self,
        books: &mut [u64],
        strips: &mut [u64],
        bytes: &[u8],
        allowed: u64,
        time: u64,
    ) -> Frame
        ensures { FrameSays self (lent books.old strips.old) bytes.now allowed time result (lent books.new strips.new) }
    {
        let mut frame = Frame {
            answer: 0,
            accepted: 0,
            used: 0,
            feed: self,
            dropped: 0,
        };
        for _ in 0..allowed {
            frame = frame.onward(books, strips, bytes, time);
            // The answer of a frame, where no Given is at hand to ask.
            if 2 < frame.answer {
                return frame;
            }
        }
        frame
    }
}

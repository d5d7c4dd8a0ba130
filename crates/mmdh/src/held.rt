// The bytes that came and are not used yet.
ghost use Rattle.std.specs.Prelude.{◌≡◌, ◌≤◌, length};
ghost use Rattle.feed.specs.Program.{buffer_size};

use std::io::{Read, Stdin};

// The bytes that can be held.
const BUFFER_BYTES: usize = 65536;

// The bytes that are left, in a buffer: those from `from` up to `to`. (A `VecDeque` would be on the heap.)
#[derive(Clone, Copy)]
pub struct Held {
    pub bytes: [u8; BUFFER_BYTES],
    pub from: usize,
    pub to: usize,
    ghost order: { from ≤ to },
    ghost inside: { to ≤ length bytes },
    ghost size: { length bytes ≡ buffer_size },
}

impl Held {
    ghost use Rattle.std.specs.Prelude.{◌≡◌, ◌+◌, ◌-◌, ◌≤◌, length, take, drop, []};
    ghost use Rattle.mmdh.specs.Code.Runs.{left};

    // No bytes.
    pub fn new() -> Held
        ensures { left result ≡ [] }
    {
        Held {
            bytes: [0; BUFFER_BYTES],
            from: 0,
            to: 0,
        }
    }

    // The bytes that are left.
    pub fn left(&self) -> &[u8]
        ensures { result.now ≡ left self.now }
    {
        &self.bytes[self.from..self.to]
    }

    // The first n of them are used.
    #[tactic(auto, using(crate::proofs::Laws::consumed))]
    pub fn consume(&mut self, n: usize)
        requires { n ≤ length (left self.old) }
        ensures rest { left self.new ≡ drop n (left self.old) }
        ensures forward { self.new.from ≡ self.old.from + n }
        ensures end { self.new.to ≡ self.old.to }
    {
        self.from += n;
    }

    // One read of standard input, behind what is left, which moves to the front: how many bytes came, none at its end, where the read fails or where there is no
    // room.
    pub fn read(&mut self, mut input: Stdin) -> usize
        ensures kept { take (length (left self.old)) (left self.new) ≡ left self.old }
        ensures front { self.new.from ≡ 0 }
        ensures more { length (left self.new) ≡ length (left self.old) + result }
    {
        let n = self.to - self.from;
        if self.from > 0 {
            self.bytes.copy_within(self.from..self.to, 0);
        }
        let came = input.read(&mut self.bytes[n..]).unwrap_or(0);
        self.from = 0;
        self.to = n + came;
        came
    }
}

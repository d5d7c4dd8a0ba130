// Numbers in bytes, and the unit at the front of a stream (document 01, "One unit").
#![tactic(auto)]

ghost use Rattle.std.specs.Prelude.{◌≡◌, ◌+◌, ◌^◌, ◌≤◌, ◌<◌, length, drop};
ghost use Rattle.std.proofs.Math.IntN.{sub_ℕ};
ghost use Rattle.wire.specs.Number.{field, bias, biased as biased_of};
ghost use Rattle.wire.specs.Units.{unit_of, message_in};
ghost use Rattle.wire.specs.Codes.{listed_code};

// How many numbers 4 bytes hold, and the bias of a price.
pub const WORD32: u64 = 4294967296;

pub const BIAS: u64 = 2147483648;

const SIGNED_BIAS: i64 = BIAS as i64;

// The bytes of a header, and of MsgSize behind it.
pub const HEADER_BYTES: usize = 20;

const SIZED_BYTES: usize = HEADER_BYTES + 2;

// Where a message has the code of its security.
pub const CODE_AT: usize = 4;

// What stands at the front of a stream: more bytes are wanted; a header alone; a header and a message of `size` bytes behind it.
#[derive(Clone, Copy)]
pub enum Unit {
    More,
    Heartbeat,
    Message {
        seq: u32,
        internal: u32,
        size: usize,
    },
}

// The bytes from a place on; none past the end.
fn behind(s: &[u8], at: usize) -> &[u8]
    ensures { result.now ≡ drop at s.now }
{
    &s[s.len().min(at)..]
}

// The number in the N bytes from `at` on, all of them there.
pub fn number_in<const N: usize>(s: &[u8], at: usize) -> u64
    requires { (N ≤ 8) × (at + N ≤ length s.now) }
    ensures { (result ≡ field at N s.now) × (result < 256 ^ N) }
{
    let mut v: u64 = 0;
    for i in (0..N).rev() {
        v = v * 256 + u64::from(s[at + i]);
    }
    v
}

// The number in the 8 bytes from `at` on, all of them there: straight out, with no loop, as request 4 has it.
#[tactic(auto, unfolding(crate::specs::Number::field))]
pub fn u64_in(s: &[u8], at: usize) -> u64
    requires { at + 8 ≤ length s.now }
    ensures { (result ≡ field at 8 s.now) × (result < 18446744073709551616) }
{
    u64::from_le_bytes([
        s[at],
        s[at + 1],
        s[at + 2],
        s[at + 3],
        s[at + 4],
        s[at + 5],
        s[at + 6],
        s[at + 7],
    ])
}

// The number in the N bytes from `at` on; a byte beyond the end counts as 0.
pub fn number_at<const N: usize>(s: &[u8], at: usize) -> u64
    requires { N ≤ 8 }
    ensures { (result ≡ field at N s.now) × (result < 256 ^ N) }
{
    let rest = behind(s, at);
    let mut v: u64 = 0;
    for i in (0..N).rev() {
        v = v * 256 + u64::from(rest.get(i).copied().unwrap_or(0));
    }
    v
}

// The word that a price is kept as, of the 4 bytes it came in.
#[tactic(auto, unfolding(crate::specs::Number::biased))]
pub fn biased(raw: u64) -> u64
    requires { raw < 4294967296 }
    ensures { (result ≡ biased_of raw) × (result < 4294967296) }
{
    (raw + BIAS) % WORD32
}

// Whether a code is one of 1 to 99,999.
#[tactic(auto, unfolding(crate::specs::Codes::listed_code))]
pub fn is_code(code: u64) -> bool
    ensures { result ≡ listed_code code }
{
    (1..=99_999).contains(&code)
}

// The signed price that a word is kept for.
pub fn price_of(word: u64) -> i64
    requires { word < 4294967296 }
    ensures { result ≡ sub_ℕ word bias }
{
    word as i64 - SIGNED_BIAS
}

// What stands at the front of a stream.
#[tactic(auto, unfolding(crate::specs::Units::unit_of))]
fn unit_in(s: &[u8]) -> Unit
    ensures { result ≡ unit_of s.now }
{
    if s.len() < HEADER_BYTES {
        return Unit::More;
    }
    let length = number_in::<2>(s, 0);
    if length == HEADER_BYTES as u64 {
        return Unit::Heartbeat;
    }
    if s.len() < SIZED_BYTES {
        return Unit::More;
    }
    let size = number_in::<2>(s, HEADER_BYTES) as usize;
    if s.len() < HEADER_BYTES + size {
        return Unit::More;
    }
    let seq = number_in::<4>(s, 4) as u32;
    let internal = number_in::<4>(s, 8) as u32;
    Unit::Message {
        seq,
        internal,
        size,
    }
}

// A place in a stream, by which units are taken off it.
#[derive(Clone, Copy)]
pub struct Cursor {
    pub at: usize,
}

impl Cursor {
    // What stands at the place; past the end, more bytes are wanted.
    pub fn read(self, s: &[u8]) -> Unit
        ensures { result ≡ unit_of (drop self.at s.now) }
    {
        unit_in(behind(s, self.at))
    }

    // The message of the unit that stands there, as the very part of the stream; of a message that runs past the end, what is there.
    pub fn message(self, s: &[u8], size: usize) -> &[u8]
        ensures { result.now ≡ message_in (drop self.at s.now) size }
    {
        let rest = behind(behind(s, self.at), HEADER_BYTES);
        &rest[..rest.len().min(size)]
    }
}

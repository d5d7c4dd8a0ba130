// What the bytes that wait and a scrap behind them ask for. They are read where they lie.
ghost use Rattle.std.specs.Prelude.{◌≡◌, ◌+◌, ◌≤◌, ◌<◌, ◌^◌, ◌++◌, length, get_or};
ghost use Rattle.wire.specs.Number.{field};
ghost use Rattle.lines.specs.Looks.{look};
ghost use Rattle.lines.specs.Scraps.{behind};

use super::{LEAST_HOLD, Look};

// The bytes that wait, and a scrap behind them.
#[derive(Clone, Copy)]
struct Come<'a> {
    waiting: &'a [u8],
    scrap: &'a [u8],
}

impl Come<'_> {
    // How many they are.
    fn len(&self) -> usize
        ensures { result ≡ length (self.now.waiting.now ++ self.now.scrap.now) }
    {
        self.waiting.len() + self.scrap.len()
    }

    // One of them.
    fn byte_at(&self, at: usize) -> u8
        requires { at < length (self.now.waiting.now ++ self.now.scrap.now) }
        ensures { result ≡ get_or (self.now.waiting.now ++ self.now.scrap.now) at 0 }
    {
        let waiting = self.waiting.len();
        if at < waiting {
            self.waiting[at]
        } else {
            self.scrap[at - waiting]
        }
    }

    // The number in two of them.
    #[tactic(auto, unfolding(wire::specs::Number::field))]
    fn number_at(&self, at: usize) -> usize
        requires { at + 2 ≤ length (self.now.waiting.now ++ self.now.scrap.now) }
        ensures { (result ≡ field at 2 (self.now.waiting.now ++ self.now.scrap.now)) × (result < 2 ^ 16) }
    {
        usize::from(u16::from_le_bytes([self.byte_at(at), self.byte_at(at + 1)]))
    }
}

// What they ask for.
#[tactic(auto, using(crate::proofs::Fronts::size_says), unfolding(crate::specs::Looks::look, crate::specs::Looks::exceeds, crate::specs::Looks::is_sized, crate::specs::Looks::finished, wire::specs::Units::unit_of))]
pub(crate) fn look_at(hold: &[u8], held: usize, scrap: &[u8]) -> Look
    ensures { result ≡ look (length hold.now) held (behind held hold.now scrap.now) }
{
    let room = hold.len();
    if room < LEAST_HOLD || room < held {
        return Look::TooLong;
    }
    let come = Come {
        waiting: &hold[..held],
        scrap,
    };
    let len = come.len();
    if len < wire::HEADER_BYTES {
        return Look::Waits;
    }
    if come.number_at(0) == wire::HEADER_BYTES {
        return Look::Finished(wire::HEADER_BYTES);
    }
    if len < LEAST_HOLD {
        return Look::Waits;
    }
    let size = come.number_at(wire::HEADER_BYTES);
    if room < wire::HEADER_BYTES + size {
        return Look::TooLong;
    }
    if len < wire::HEADER_BYTES + size {
        return Look::Waits;
    }
    Look::Finished(wire::HEADER_BYTES + size.max(2))
}

// The lent table of strips: a message on it, clearing it, and reading a strip out of it.
ghost use Rattle.std.specs.Prelude.{◌≡◌, true, ◌<◌, length};
ghost use Rattle.ground.specs.Refusals.{answer_of};
ghost use Rattle.slots.specs.Layout.{landed, count_in, block as block_of, cleared_in, turn};
ghost use Rattle.strips.specs.Words.{strip_width, value_count, sound_strip};
ghost use Rattle.strips.specs.Table.{strips, step_of};
ghost use Rattle.strips.specs.Reading.{price_shown, strip_shown, read_as, strip_read};
ghost use Rattle.strips.specs.Promised.{StripSays};
ghost use Rattle.strips.specs.Code.Shapes.{Sized, PriceAt};

use super::{STRIP_WORDS, Shown, Strip};
use ground::Refusal;
use slots::{Layout, MOST, Slot};

// How the table of strips is laid out.
const LAYOUT: Layout = Layout {
    width: STRIP_WORDS,
    most: MOST,
};

// Every slot of the table emptied; the words behind the slots stay.
pub fn clear(table: &mut [u64])
    ensures { table.new ≡ cleared_in strips table.old }
{
    LAYOUT.clear(table);
}

// A strip message of the right size on the table: unsound, full or taken, in that order; only when it is taken is anything written. A code's own strip has
// to be sound; whatever the words of a free slot are, nothing has come. A call of its own, so that a strip's ten words are held in registers.
#[inline(never)]
#[tactic(auto, using(crate::proofs::Turning::turning))]
pub fn take(table: &mut [u64], m: &[u8]) -> Result<(), Refusal>
    requires { Sized m.now }
    ensures { landed (answer_of result) table.new ≡ turn strips (step_of m.now) table.old }
{
    let code = wire::number_in::<4>(m, wire::CODE_AT);
    match LAYOUT.find(table, code) {
        Slot::Held(k) => {
            let strip = Strip::read(slots::words_in(table, k))?;
            slots::put(table, k, &strip.after(m).words(code));
            Ok(())
        }
        Slot::Free(k) => {
            slots::put(table, k, &Strip::empty().after(m).words(code));
            Ok(())
        }
        Slot::Full => Err(Refusal::Full),
    }
}

// What a strip shows.
impl Strip {
    // A price signed as sent, and 0 while it has not come.
    #[tactic(auto, using(crate::proofs::Showing::priced))]
    fn price(self, k: usize) -> i64
        requires { (k < value_count) × PriceAt k self }
        ensures { result ≡ price_shown k self }
    {
        if self.has(k) {
            wire::price_of(self.values[k])
        } else {
            0
        }
    }

    // All that it shows.
    #[tactic(auto, using(crate::proofs::Showing::price_at), unfolding(crate::specs::Forms::fields_of))]
    fn shown(self) -> Shown
        requires { sound_strip self ≡ true }
        ensures { read_as result ≡ strip_shown self }
    {
        let values = self.values;
        Shown {
            flags: self.flags,
            nominal: self.price(0),
            iep: self.price(1),
            iev: values[2],
            reference: self.price(3),
            lower: self.price(4),
            upper: self.price(5),
            direction: values[6],
            imbalance: values[7],
            closing: self.price(8),
        }
    }
}

// A strip by its code: unlisted, missing, unsound or what it shows, in that order. It writes nothing.
#[tactic(auto, using(crate::proofs::Showing::showing))]
pub fn read_strip(table: &[u64], code: u64) -> Result<Shown, Refusal>
    ensures { StripSays table.now code (strip_read result) }
{
    if !wire::is_code(code) {
        return Err(Refusal::Unlisted);
    }
    let Slot::Held(k) = LAYOUT.find(table, code) else {
        return Err(Refusal::Missing);
    };
    let strip = Strip::read(slots::words_in(table, k))?;
    Ok(strip.shown())
}

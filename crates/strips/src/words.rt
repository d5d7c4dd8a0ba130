// The words of a strip: read and written, what a message makes of it, and whether it is sound.
ghost use Rattle.std.specs.Prelude.{◌≡◌, ◌<◌};
ghost use Rattle.strips.specs.Words.{value_count, strip_of, words_of, empty_strip, come, legal, sound_value, sound_strip, sound, stored as stored_at, stored_all, strip_after};
ghost use Rattle.strips.specs.Code.Shapes.{field_of, fields_from, sound_strip_of, Spans, Sized};

use super::forms::{is_direction, shape_in, sort_of, value_in};
use super::{SPARE_AT, STRIP_WORDS, Shape, Sort, Strip, VALUES};
use ground::Refusal;

// Whether a value of a kind that has come is one that it can be.
#[tactic(auto, unfolding(crate::specs::Words::legal))]
fn is_legal(sort: Sort, v: u64) -> bool
    ensures { result ≡ legal sort v }
{
    match sort {
        Sort::Price => v < wire::WORD32,
        Sort::Direction => is_direction(v),
        Sort::Quantity | Sort::Imbalance => true,
    }
}

// A strip out of its words and into them.
impl Strip {
    // To which nothing has come.
    pub(crate) fn empty() -> Strip
        ensures { result ≡ empty_strip }
    {
        Strip {
            flags: 0,
            values: [0; VALUES],
        }
    }

    // In a slot's words, whatever they are.
    #[tactic(auto, unfolding(crate::specs::Words::strip_of, crate::specs::Words::words_from))]
    pub(crate) fn of(words: &[u64; STRIP_WORDS]) -> Strip
        ensures { result ≡ strip_of words.now }
    {
        let [_, flags, a, b, c, d, e, f, g, h, i, _] = *words;
        Strip {
            flags,
            values: [a, b, c, d, e, f, g, h, i],
        }
    }

    // Whether a slot's words are sound: the spare one is zero, and the strip is sound. A call of its own: drawn in, it makes the search before it longer.
    #[inline(never)]
    #[tactic(auto, using(crate::proofs::Blocks::sounding))]
    fn is_sound_in(words: &[u64; STRIP_WORDS]) -> bool
        ensures { result ≡ sound words.now }
    {
        words[SPARE_AT] == 0 && Strip::of(words).is_sound()
    }

    // In a slot's words, which have to be sound.
    #[inline(always)]
    #[tactic(auto, using(crate::proofs::Blocks::reading))]
    pub(crate) fn read(words: &[u64; STRIP_WORDS]) -> Result<Strip, Refusal>
        ensures { result ≡ sound_strip_of words.now }
    {
        if Strip::is_sound_in(words) {
            Ok(Strip::of(words))
        } else {
            Err(Refusal::Unsound)
        }
    }

    // The words of a code's slot: code, flags, values, zero.
    #[tactic(auto, unfolding(crate::specs::Words::words_of, crate::specs::Words::words_from))]
    pub(crate) fn words(self, code: u64) -> [u64; STRIP_WORDS]
        ensures { result ≡ words_of code self }
    {
        let [a, b, c, d, e, f, g, h, i] = self.values;
        [code, self.flags, a, b, c, d, e, f, g, h, i, 0]
    }
}

// What a strip says of its values, and a strip with one more.
impl Strip {
    // Whether value k has come.
    #[tactic(auto, unfolding(crate::specs::Words::come))]
    pub(crate) fn has(self, k: usize) -> bool
        requires { k < value_count }
        ensures { result ≡ come k self }
    {
        (self.flags >> k) % 2 == 1
    }

    // Whether value k is sound: one that its kind can be, or zero where it has not come.
    fn is_value_sound(self, k: usize) -> bool
        requires { k < value_count }
        ensures { result ≡ sound_value (field_of k).sort k self }
    {
        let v = self.values[k];
        if self.has(k) {
            is_legal(sort_of(k), v)
        } else {
            v == 0
        }
    }

    // Whether the flags and all values are sound.
    pub(crate) fn is_sound(self) -> bool
        ensures { result ≡ sound_strip self }
    {
        self.flags < 512 && (0..VALUES).all(|k| self.is_value_sound(k))
    }

    // Value k comes.
    #[tactic(auto, using(crate::proofs::Blocks::stored_told))]
    fn stored(mut self, k: usize, v: u64) -> Strip
        requires { k < value_count }
        ensures { result ≡ stored_at k v self }
    {
        self.flags |= 1 << k;
        self.values[k] = v;
        self
    }

    // The values of a message of a shape come.
    #[tactic(auto, using(crate::proofs::Blocks::storing))]
    fn with(mut self, m: &[u8], shape: Shape) -> Strip
        requires { Spans m.now shape.first shape.count }
        ensures { result ≡ stored_all m.now (fields_from shape.first shape.count) self }
    {
        for k in shape.first..shape.first + shape.count {
            self = self.stored(k, value_in(m, k));
        }
        self
    }

    // What a message of the right size makes of the strip. Drawn in: as a call it would take and hand back the strip by way of memory.
    #[inline(always)]
    #[tactic(auto, using(crate::proofs::Blocks::after_none))]
    pub(crate) fn after(self, m: &[u8]) -> Strip
        requires { Sized m.now }
        ensures { result ≡ strip_after m.now self }
    {
        match shape_in(m) {
            Some(shape) => self.with(m, shape),
            None => self,
        }
    }
}

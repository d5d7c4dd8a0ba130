// A lent table of 64-bit words as slots of some width (document 01, "The book table"): word 0 of a slot is its code, 0 where it is free.
#![tactic(auto)]

ghost use Rattle.std.specs.Prelude.{◌≡◌, ◌<◌, [], length, get_or};
ghost use Rattle.slots.specs.Slots.{max_slots, slot_count, slots_of, code_of, place, put, cleared};
ghost use Rattle.slots.specs.Code.Turns.{found};

// "at most 4,096": how many slots a table of books has at most.
pub const MOST: usize = 4096;

// Where a code belongs: the lowest slot that has it; else the lowest free slot; else nowhere.
#[derive(Clone, Copy, PartialEq, Eq)]
pub enum Slot {
    Held(usize),
    Free(usize),
    Full,
}

// How the slots of a table are laid out: how many words each has, and how many there are at most.
#[derive(Clone, Copy)]
pub struct Layout {
    pub width: usize,
    pub most: usize,
    ghost wide: { 0 < width },
}

impl Layout {
    // How many slots a table has: whole blocks, and no more than the most.
    fn count(self, table: &[u64]) -> usize
        ensures { result ≡ slot_count self.most self.width (length table.now) }
    {
        (table.len() / self.width).min(self.most)
    }

    // The lowest slot with the code, if there is one.
    fn seek(self, table: &[u64], code: u64) -> Option<usize>
        ensures { result ≡ found code (slots_of self.most self.width table.now) }
    {
        for k in 0..self.count(table) {
            if table[self.width * k] == code {
                return Some(k);
            }
        }
        None
    }

    // Where the code belongs in the table.
    pub fn find(self, table: &[u64], code: u64) -> Slot
        ensures { result ≡ place code (slots_of self.most self.width table.now) }
    {
        match self.seek(table, code) {
            Some(k) => Slot::Held(k),
            None => match self.seek(table, 0) {
                Some(k) => Slot::Free(k),
                None => Slot::Full,
            },
        }
    }

    // Zeroes every slot; the words behind the slots stay.
    pub fn clear(self, table: &mut [u64])
        ensures { table.new ≡ cleared self.most self.width table.old }
    {
        let end = self.width * self.count(table);
        table[..end].fill(0);
    }
}

// The words of slot k.
#[tactic(auto, using(crate::proofs::Cases::words_at))]
pub fn words_in<const W: usize>(table: &[u64], k: usize) -> &[u64; W]
    requires { k < slot_count max_slots W (length table.now) }
    ensures { result.now ≡ get_or (slots_of max_slots W table.now) k [] }
{
    let a = W * k;
    table[a..a + W].as_array().unwrap()
}

// A slot's words written over, as one array: by copy_from_slice a strip message takes a tenth longer.
fn overwrite<const W: usize>(slot: &mut [u64], words: &[u64; W])
    requires { length slot.old ≡ W }
    ensures { slot.new ≡ words.now }
{
    let Some(all) = slot.as_mut_array() else {
        unreachable!()
    };
    *all = *words;
}

// Slot k written over.
pub fn put<const W: usize>(table: &mut [u64], k: usize, words: &[u64; W])
    requires { k < slot_count max_slots W (length table.old) }
    ensures { table.new ≡ put W k words.now table.old }
{
    let a = W * k;
    overwrite(&mut table[a..a + W], words);
}

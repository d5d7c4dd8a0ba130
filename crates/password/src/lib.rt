// New passwords, judged before the hub judges them: the verdict of an edition's rule on the bytes lent. Nothing is written, and no byte is copied.
#![tactic(auto)]

ghost use Rattle.std.specs.Prelude.{ℕ, ◌≡◌, ◌-◌, ◌≤◌, List, length, SomeIff};
ghost use Rattle.ground.specs.Choice.{any, same};
ghost use Rattle.password.specs.Promised.{EditionSays, HistorySays, CheckSays, AskedSays};
ghost use Rattle.password.specs.Rule.{fault_no, verdict_no, shortest, asks_special, is_of, lacks, total, lasts, judged};

use std::marker::Model;

// The editions of the exchange's document whose rules are known: 1.11 and 1.36.
#[derive(Clone, Copy, Debug, PartialEq, Eq)]
pub enum Edition {
    E111,
    E136,
}

// A number that is not that of such an edition.
#[derive(Clone, Copy, Debug, PartialEq, Eq)]
pub struct UnknownEdition;

// The classes of characters that a rule asks for.
#[derive(Clone, Copy, Debug, PartialEq, Eq)]
pub enum Class {
    Upper,
    Lower,
    Digit,
    Special,
}

// Why a new password does not pass: what is lent as a history is none, or the first item that fails.
#[derive(Clone, Copy, Debug, PartialEq, Eq)]
pub enum Fault {
    BadHistory,
    Short,
    NoUpper,
    NoLower,
    NoDigit,
    NoSpecial,
    Used,
}

// The last passwords: how long each is, and their bytes one after the other.
#[derive(Drop)]
struct History<'a> {
    lengths: &'a [u64],
    bytes: &'a [u8],
}

// In contracts it is the list of the passwords.
impl<'a> Model for History<'a> {
    ghost Value = { List (List ℕ) };

    ghost view = { λ h. lasts h.lengths.now h.bytes.now };

    ghost invariant = { λ h. total h.lengths.now ≡ length h.bytes.now };
}

// The most passwords of a history.
const MOST: usize = 5;

// An edition by its number.
impl TryFrom<u64> for Edition {
    type Error = UnknownEdition;

    ghost try_from_gives = { EditionSays };

    fn try_from(number: u64) -> Result<Self, UnknownEdition> {
        match number {
            111 => Ok(Edition::E111),
            136 => Ok(Edition::E136),
            _ => Err(UnknownEdition),
        }
    }
}

// A fault's number.
impl From<Fault> for u64 {
    ghost from_gives = { λ fault n. n ≡ fault_no fault };

    fn from(fault: Fault) -> u64 {
        match fault {
            Fault::BadHistory => 23,
            Fault::Short => 1,
            Fault::NoUpper => 2,
            Fault::NoLower => 3,
            Fault::NoDigit => 4,
            Fault::NoSpecial => 5,
            Fault::Used => 6,
        }
    }
}

// A verdict's number.
pub fn verdict_number(verdict: Result<(), Fault>) -> u64
    ensures { result ≡ verdict_no verdict }
{
    match verdict {
        Ok(()) => 0,
        Err(fault) => fault.into(),
    }
}

impl Edition {
    // The least number of bytes.
    fn shortest(self) -> usize
        ensures { result ≡ shortest self }
    {
        match self {
            Edition::E111 => 8,
            Edition::E136 => 16,
        }
    }

    // Whether a special character is asked for.
    fn asks_special(self) -> bool
        ensures { result ≡ asks_special self }
    {
        match self {
            Edition::E111 => false,
            Edition::E136 => true,
        }
    }
}

impl Class {
    // Whether a byte is of the class.
    #[tactic(auto, unfolding(crate::specs::Rule::is_of, ground::specs::Choice::one_of))]
    fn has(self, b: u8) -> bool
        ensures { result ≡ is_of self b }
    {
        match self {
            Class::Upper => b.is_ascii_uppercase(),
            Class::Lower => b.is_ascii_lowercase(),
            Class::Digit => b.is_ascii_digit(),
            Class::Special => b"!@#$^&*()".contains(&b),
        }
    }

    // Whether no byte is of the class.
    fn is_missing_in(self, new: &[u8]) -> bool
        ensures { result ≡ lacks self new.now }
    {
        !new.iter().any(|&b| self.has(b))
    }
}

// What lengths leave of so many bytes, if they leave any. It is counted down, so that no sum can wrap.
#[tactic(auto, unfolding(crate::specs::Rule::total))]
fn left_of(bytes: u64, lengths: &[u64]) -> Option<u64>
    ensures { SomeIff result (total lengths.now ≤ bytes) (bytes - total lengths.now) }
{
    let mut left = bytes;
    for &n in lengths {
        left = left.checked_sub(n)?;
    }
    Some(left)
}

impl<'a> History<'a> {
    // What is lent, as a history: none where there are too many lengths, or lengths that do not add up to the bytes.
    #[tactic(auto, unfolding(crate::specs::Rule::bad_history))]
    fn new(lengths: &'a [u64], bytes: &'a [u8]) -> Result<Self, Fault>
        ensures { HistorySays lengths.now bytes.now result }
    {
        if lengths.len() > MOST || left_of(bytes.len() as u64, lengths) != Some(0) {
            return Err(Fault::BadHistory);
        }
        Ok(History { lengths, bytes })
    }

    // Whether a password is one of the history.
    #[tactic(auto, using(crate::proofs::Laws::total_step, crate::proofs::Laws::lasts_step), unfolding(crate::specs::Rule::lasts, ground::specs::Choice::any))]
    fn has(&self, new: &[u8]) -> bool
        ensures { result ≡ any (same new.now) self.now }
    {
        let mut rest = self.bytes;
        for &n in self.lengths {
            let (last, after) = rest.split_at(n as usize);
            if new == last {
                return true;
            }
            rest = after;
        }
        false
    }
}

// The first item that fails.
#[tactic(auto, unfolding(crate::specs::Rule::items, ground::specs::Choice::first))]
fn judge(edition: Edition, new: &[u8], history: &History) -> Result<(), Fault>
    ensures { result ≡ judged edition new.now history.now }
{
    if new.len() < edition.shortest() {
        return Err(Fault::Short);
    }
    if Class::Upper.is_missing_in(new) {
        return Err(Fault::NoUpper);
    }
    if Class::Lower.is_missing_in(new) {
        return Err(Fault::NoLower);
    }
    if Class::Digit.is_missing_in(new) {
        return Err(Fault::NoDigit);
    }
    if edition.asks_special() && Class::Special.is_missing_in(new) {
        return Err(Fault::NoSpecial);
    }
    if history.has(new) {
        return Err(Fault::Used);
    }
    Ok(())
}

// The verdict on a new password under an edition, with the last passwords: their lengths, and their bytes one after the other.
#[tactic(auto, unfolding(crate::specs::Rule::verdict_of))]
pub fn check(edition: Edition, new: &[u8], lengths: &[u64], history: &[u8]) -> Result<(), Fault>
    ensures { CheckSays edition new.now lengths.now history.now result }
{
    let history = History::new(lengths, history)?;
    judge(edition, new, &history)
}

// The number of the verdict under an edition by its number: 111 or 136, and 15 for another. Numbers in and out, since C hands them on.
#[tactic(auto, unfolding(crate::specs::Rule::plain_verdict, crate::specs::Rule::verdict_of, ground::specs::Choice::first))]
pub fn asked(edition: u64, new: &[u8], lengths: &[u64], history: &[u8]) -> u64
    ensures { AskedSays edition new.now lengths.now history.now result }
{
    let history = match History::new(lengths, history) {
        Ok(history) => history,
        Err(fault) => return fault.into(),
    };
    let Ok(edition) = Edition::try_from(edition) else {
        return 15;
    };
    verdict_number(judge(edition, new, &history))
}

// What every crate above stands on: why something is refused, by document 01's answer numbers; and definitions and laws of lists of numbers and of tests.
#![tactic(auto)]

ghost use Rattle.std.specs.Prelude.{◌≡◌};
ghost use Rattle.ground.specs.Refusals.{refusal_no};

// Why something is refused (document 01, "Answer numbers" and "Reading a row"; 22 is document 02's, request 5).
#[derive(Clone, Copy, PartialEq, Eq)]
pub enum Refusal {
    More,
    Missing,
    Early,
    Deaf,
    Size,
    Gap,
    Phase,
    Unlisted,
    Misfit,
    Full,
    Unsound,
    Limit,
    Need,
    TooLong,
}

// A refusal's number.
impl From<Refusal> for u64 {
    ghost from_gives = { λ e n. n ≡ refusal_no e };

    fn from(refusal: Refusal) -> u64 {
        match refusal {
            Refusal::More => 3,
            Refusal::Missing => 4,
            Refusal::Early => 10,
            Refusal::Deaf => 11,
            Refusal::Size => 12,
            Refusal::Gap => 13,
            Refusal::Phase => 14,
            Refusal::Unlisted => 15,
            Refusal::Misfit => 16,
            Refusal::Full => 17,
            Refusal::Unsound => 18,
            Refusal::Limit => 19,
            Refusal::Need => 20,
            Refusal::TooLong => 22,
        }
    }
}

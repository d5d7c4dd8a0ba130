// The phases and their numbers (document 01, "The feed").
ghost use Rattle.std.specs.Prelude.{◌≡◌};
ghost use Rattle.feed.specs.Feeds.{phase_no, deaf, phase_of};

use super::Phase;

// The number of a phase.
impl From<Phase> for u64 {
    ghost from_gives = { λ p n. n ≡ phase_no p };

    fn from(phase: Phase) -> u64 {
        phase as u64
    }
}

// The phase of a number; an unknown one counts as Lost.
impl From<u64> for Phase {
    ghost from_gives = { λ n p. p ≡ phase_of n };

    #[tactic(auto, unfolding(crate::specs::Feeds::phase_of, ground::specs::Choice::pick))]
    fn from(n: u64) -> Phase {
        match n {
            0 => Phase::Idle,
            1 => Phase::WaitKey,
            2 => Phase::WaitLogon,
            3 => Phase::Refreshing,
            4 => Phase::Live,
            6 => Phase::Closed,
            _ => Phase::Lost,
        }
    }
}

impl Phase {
    // Whether nothing that arrives is heard.
    #[tactic(auto, unfolding(crate::specs::Feeds::deaf, crate::specs::Feeds::is))]
    pub(crate) fn is_deaf(self) -> bool
        ensures { result ≡ deaf self }
    {
        matches!(self, Phase::Idle | Phase::Lost | Phase::Closed)
    }
}

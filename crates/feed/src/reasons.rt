// Why a badge is what it is, by a number.
ghost use Rattle.std.specs.Prelude.{◌≡◌};
ghost use Rattle.feed.specs.Promised.{WhySays};
ghost use Rattle.feed.specs.Reasons.{reason, why as why_at, plain_why};
ghost use Rattle.feed.specs.Code.Numbers.{reason_no};

use super::badges::is_limit;
use super::{Feed, Phase, Reason};

// The number of a reason.
impl From<Reason> for u64 {
    ghost from_gives = { λ r n. n ≡ reason_no r };

    fn from(reason: Reason) -> u64 {
        reason as u64
    }
}

// The reason of a phase. A function, and no From: a reason needs a time as well as a phase.
fn reason_of(p: Phase) -> Reason
    ensures { reason_no result ≡ reason p }
{
    match p {
        Phase::Idle => Reason::Unconnected,
        Phase::WaitKey => Reason::Key,
        Phase::WaitLogon => Reason::Logon,
        Phase::Refreshing => Reason::Refresh,
        Phase::Live => Reason::Live,
        Phase::Lost => Reason::Lost,
        Phase::Closed => Reason::Closed,
    }
}

// The reason at a time, of a phase, the last heard time and the limit.
#[tactic(auto, unfolding(crate::specs::Reasons::why, ground::specs::Choice::first))]
fn why_at(phase: Phase, heard: u64, limit: u64, time: u64) -> Reason
    ensures { reason_no result ≡ why_at phase heard limit time }
{
    if phase.is_deaf() {
        return reason_of(phase);
    }
    if !is_limit(limit) {
        return Reason::Limit;
    }
    if time < heard {
        return Reason::Early;
    }
    if limit < time - heard {
        return Reason::Silent;
    }
    reason_of(phase)
}

// The reason by plain numbers, for the screen's C call.
pub fn why_asked(phase: u64, heard: u64, limit: u64, time: u64) -> u64
    ensures { result ≡ plain_why phase heard limit time }
{
    why_at(phase.into(), heard, limit, time).into()
}

impl Feed {
    // Why the badge is what it is at a time.
    pub fn why(self, time: u64) -> u64
        ensures { WhySays self time result }
    {
        why_at(self.phase, self.heard, self.limit, time).into()
    }
}

// What a feed decides by itself, lent no table: 10, 11, 12, 13, 14, 1, 15 (document 01, "Answer numbers").
ghost use Rattle.std.specs.Prelude.{◌≡◌};
ghost use Rattle.feed.specs.Events.{Message};
ghost use Rattle.feed.specs.Answers.{allowed, seen};
ghost use Rattle.feed.specs.Code.Judging.{hearing, judged, verdict as verdict_of};

use super::messages::Arrival;
use super::{Datum, Feed, Kind, Phase, Session, Turn};
use ground::Refusal;

// Whether a session's message is allowed in a phase.
#[tactic(auto, unfolding(crate::specs::Answers::allowed, crate::specs::Feeds::is))]
fn is_session_allowed(session: Session, p: Phase) -> bool
    ensures { result ≡ allowed (Kind.Session session) p 0 }
{
    match session {
        Session::SendKey => p == Phase::WaitKey,
        Session::Logon => p == Phase::WaitLogon,
        Session::Logout => !p.is_deaf(),
        Session::Refresh | Session::Complete => p == Phase::Refreshing,
        Session::Request => false,
    }
}

// Whether a market message with an internal number is allowed in a phase.
#[tactic(auto, unfolding(crate::specs::Answers::allowed, crate::specs::Feeds::is))]
fn is_market_allowed(p: Phase, internal: u32) -> bool
    ensures { result ≡ allowed (Kind.Market Datum.Other) p internal }
{
    match p {
        Phase::Refreshing => internal == 0,
        Phase::Live => 1 <= internal,
        Phase::Idle | Phase::WaitKey | Phase::WaitLogon | Phase::Lost | Phase::Closed => false,
    }
}

// Whether a message with an internal number is allowed in a phase.
#[tactic(auto, unfolding(crate::specs::Answers::allowed))]
fn is_allowed(kind: Kind, p: Phase, internal: u32) -> bool
    ensures { result ≡ allowed kind p internal }
{
    match kind {
        Kind::Session(session) => is_session_allowed(session, p),
        Kind::Market(_) => is_market_allowed(p, internal),
    }
}

// What the feed decides by itself.
impl Feed {
    // Whether a message is a market message in Live, not above the last internal number.
    #[tactic(auto, using(crate::proofs::Parts::seen_parts), unfolding(crate::specs::Feeds::is))]
    fn is_seen(self, kind: Kind, internal: u32) -> bool
        ensures { result ≡ seen self kind internal }
    {
        self.phase == Phase::Live
            && matches!(kind, Kind::Market(_))
            && u64::from(internal) <= self.internal
    }

    // 10 or 11, where an arrival gets no further.
    #[tactic(auto, unfolding(crate::specs::Code::Judging::hearing))]
    pub(crate) fn hears(self, time: u64) -> Result<(), Refusal>
        ensures { result ≡ hearing self time }
    {
        if time < self.heard {
            return Err(Refusal::Early);
        }
        if self.phase.is_deaf() {
            return Err(Refusal::Deaf);
        }
        Ok(())
    }

    // What the feed by itself makes of a message: refused with 10 to 15, or not.
    #[inline(always)]
    #[tactic(auto, using(crate::proofs::Parts::verdict_is), unfolding(crate::specs::Answers::is_next))]
    pub(crate) fn verdict(self, arrival: Arrival<'_>, time: u64) -> Result<Turn, Refusal>
        ensures { judged result ≡ verdict_of self time (Message arrival.entry.seq arrival.entry.internal arrival.entry.message.now) }
    {
        self.hears(time)?;
        if arrival.is_wrong() {
            return Err(Refusal::Size);
        }
        if u64::from(arrival.seq) != self.next {
            return Err(Refusal::Gap);
        }
        if !is_allowed(arrival.kind, self.phase, arrival.internal) {
            return Err(Refusal::Phase);
        }
        if self.is_seen(arrival.kind, arrival.internal) {
            return Ok(Turn::Seen);
        }
        if !arrival.is_listed() {
            return Err(Refusal::Unlisted);
        }
        Ok(Turn::Taken)
    }
}

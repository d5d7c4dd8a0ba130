// A feed with one thing changed.
ghost use Rattle.std.specs.Prelude.{◌≡◌, false, cond, ◌≤◌};
ghost use Rattle.feed.specs.Feeds.{in_phase, internal_is, heard_at, whole_is};
ghost use Rattle.feed.specs.Answers.{last_seq_num};
ghost use Rattle.feed.specs.Steps.{enter_live, advanced as advanced_at, counted, accepted};
ghost use Rattle.feed.specs.Code.Judging.{answered, fault, refused as refused_by, used_is, dropped_is};

use super::{Datum, Feed, Given, Kind, Phase};
use ground::Refusal;

// The feed with one thing changed, and the feed with an answer.
impl Feed {
    // The feed in another phase.
    pub(crate) fn in_phase(self, phase: Phase) -> Feed
        ensures { result ≡ in_phase phase self }
    {
        Feed { phase, ..self }
    }

    // An answer with no bytes used and no row dropped, and this feed after it.
    pub(crate) fn kept(self, answer: u64) -> Given
        ensures { result ≡ answered answer self }
    {
        Given {
            answer,
            used: 0,
            feed: self,
            dropped: 0,
        }
    }

    // Lost and not whole, with the answer that did it.
    pub(crate) fn spoilt(self, answer: u64) -> Given
        ensures { result ≡ answered answer (in_phase Phase.Lost (whole_is false self)) }
    {
        Feed {
            phase: Phase::Lost,
            whole: false,
            ..self
        }
        .kept(answer)
    }

    // Refused: document 01's number, and the feed as its table has it, which is unchanged, Lost, or Lost and not whole.
    pub(crate) fn refused(self, refusal: Refusal) -> Given
        ensures { result ≡ refused_by (fault refusal) self }
    {
        let answer = refusal.into();
        match refusal {
            Refusal::More
            | Refusal::Missing
            | Refusal::Early
            | Refusal::Deaf
            | Refusal::Limit
            | Refusal::Need => self.kept(answer),
            Refusal::Size | Refusal::Gap | Refusal::Phase | Refusal::TooLong => {
                self.in_phase(Phase::Lost).kept(answer)
            }
            Refusal::Unlisted | Refusal::Misfit | Refusal::Full | Refusal::Unsound => {
                self.spoilt(answer)
            }
        }
    }

    // The last heard time is set.
    pub(crate) fn heard_at(self, time: u64) -> Feed
        ensures { result ≡ heard_at time self }
    {
        Feed {
            heard: time,
            ..self
        }
    }

    // The next SeqNum advances, and the message is heard. That it can is asked here and no type's invariant: C makes a feed of any numbers.
    pub(crate) fn advanced(self, time: u64) -> Feed
        requires { self.next ≤ last_seq_num }
        ensures { result ≡ advanced_at time self }
    {
        Feed {
            next: self.next + 1,
            ..self.heard_at(time)
        }
    }

    // The same for a market message, and in Live its internal number becomes the last.
    #[tactic(auto, using(crate::proofs::Parts::market_counted), unfolding(crate::specs::Feeds::is))]
    pub(crate) fn numbered(self, internal: u32, time: u64) -> Feed
        requires { self.next ≤ last_seq_num }
        ensures { result ≡ advanced_at time (counted (Kind.Market Datum.Other) internal self) }
    {
        let feed = self.advanced(time);
        if self.phase == Phase::Live {
            return Feed {
                internal: internal.into(),
                ..feed
            };
        }
        feed
    }

    // Live, and whole.
    pub(crate) fn live(self) -> Feed
        ensures { result ≡ enter_live self }
    {
        Feed {
            phase: Phase::Live,
            whole: true,
            ..self
        }
    }

    // A refresh is complete: Live, and the number becomes the last internal number.
    pub(crate) fn completed(self, internal: u64) -> Feed
        ensures { result ≡ enter_live (internal_is internal self) }
    {
        Feed {
            internal,
            ..self.live()
        }
    }

    // What clearing makes of the feed: the last internal number is 0, and it is not whole.
    pub(crate) fn forgotten(self) -> Feed
        ensures { result ≡ internal_is 0 (whole_is false self) }
    {
        Feed {
            internal: 0,
            whole: false,
            ..self
        }
    }
}

// What a call hands back, with the bytes it used and the rows it dropped.
impl Given {
    // Whether the unit is accepted: after answers 0, 1 and 2.
    pub fn is_accepted(self) -> bool
        ensures { result ≡ accepted self.answer }
    {
        self.answer <= 2
    }

    // The rows dropped.
    pub(crate) fn dropping(self, dropped: u64) -> Given
        ensures { result ≡ dropped_is dropped self }
    {
        Given { dropped, ..self }
    }

    // The bytes used, where n are offered: all of them after answers 0, 1 and 2, and none after another.
    pub(crate) fn using(self, n: usize) -> Given
        ensures { result ≡ used_is (cond (accepted self.answer) n 0) self }
    {
        let used = if self.is_accepted() { n } else { 0 };
        Given { used, ..self }
    }
}

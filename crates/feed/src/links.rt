// New feeds, connects, and the badge of a feed (document 01, "The feed").
ghost use Rattle.std.specs.Prelude.{◌≡◌};
ghost use Rattle.feed.specs.Feeds.{new_feed};
ghost use Rattle.feed.specs.Events.{Linked};
ghost use Rattle.feed.specs.Promised.{NewSays, ConnectSays, BadgeSays};
ghost use Rattle.feed.specs.Answers.{lacks_need};

use super::badges::{badge_at, is_limit};
use super::{Badge, Feed, Given, Link, Phase};
use ground::Refusal;

// A new feed with a limit.
fn idle(limit: u64) -> Feed
    ensures { result ≡ new_feed limit }
{
    Feed {
        phase: Phase::Idle,
        next: 1,
        internal: 0,
        heard: 0,
        limit,
        whole: false,
        fresh: true,
    }
}

// New feeds, connects and the badge.
impl Feed {
    // A new feed with a silence limit: 19 where the limit is outside 1 to 600,000.
    #[tactic(auto, unfolding(crate::specs::Feeds::new_given, ground::specs::Choice::first))]
    pub fn new(limit: u64) -> Given
        ensures { NewSays limit result }
    {
        if is_limit(limit) {
            return idle(limit).kept(0);
        }
        idle(1000).refused(Refusal::Limit)
    }

    // Whether a connect is resuming without its need.
    #[tactic(auto, unfolding(crate::specs::Answers::lacks_need))]
    fn lacks_need(self, link: Link) -> bool
        ensures { result ≡ lacks_need self (Linked link) }
    {
        link == Link::Resuming && !(self.whole && 1 <= self.internal)
    }

    // A connect, fresh or resuming.
    #[tactic(auto, using(crate::proofs::Parts::connect_is))]
    pub fn connect(self, link: Link, time: u64) -> Given
        ensures { ConnectSays self link time result }
    {
        if time < self.heard {
            return self.refused(Refusal::Early);
        }
        if self.lacks_need(link) {
            return self.refused(Refusal::Need);
        }
        Feed {
            phase: Phase::WaitKey,
            next: 1,
            heard: time,
            fresh: link == Link::Fresh,
            ..self
        }
        .kept(0)
    }

    // The badge at a time.
    pub fn badge(self, time: u64) -> Badge
        ensures { BadgeSays self time result }
    {
        badge_at(self.phase, self.heard, self.limit, time)
    }
}

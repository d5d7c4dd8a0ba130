// The badge (document 01, "The badge").
ghost use Rattle.std.specs.Prelude.{◌≡◌, ◌&&◌, ◌+◌, leb};
ghost use Rattle.feed.specs.Feeds.{listed_limit, colour, badge_no, badge as badge_for, plain_badge};

use super::{Badge, Phase};

// Whether a silence limit is from 1 to 600,000.
#[tactic(auto, unfolding(crate::specs::Feeds::listed_limit))]
pub(crate) fn is_limit(limit: u64) -> bool
    ensures { result ≡ listed_limit limit }
{
    (1..=600_000).contains(&limit)
}

// Whether a time is not before the last heard time and at most the limit after it.
fn is_timely(heard: u64, limit: u64, time: u64) -> bool
    ensures { result ≡ (listed_limit limit && leb heard time && leb time (heard + limit)) }
{
    is_limit(limit) && heard <= time && time - heard <= limit
}

// The badge of a phase that is heard in time. A function, and no From: a badge needs a time as well as a phase.
fn colour_of(p: Phase) -> Badge
    ensures { result ≡ colour p }
{
    match p {
        Phase::WaitKey | Phase::WaitLogon | Phase::Refreshing => Badge::Filling,
        Phase::Live => Badge::Green,
        Phase::Idle | Phase::Lost | Phase::Closed => Badge::Stale,
    }
}

// The badge at a time, of a phase, the last heard time and the limit.
#[tactic(auto, unfolding(crate::specs::Feeds::badge))]
pub(crate) fn badge_at(phase: Phase, heard: u64, limit: u64, time: u64) -> Badge
    ensures { result ≡ badge_for phase heard limit time }
{
    if is_timely(heard, limit, time) {
        colour_of(phase)
    } else {
        Badge::Stale
    }
}

// The number of a badge.
impl From<Badge> for u64 {
    ghost from_gives = { λ b n. n ≡ badge_no b };

    fn from(badge: Badge) -> u64 {
        badge as u64
    }
}

// The badge by plain numbers, for the screen's C call.
pub fn badge_asked(phase: u64, heard: u64, limit: u64, time: u64) -> u64
    ensures { result ≡ plain_badge phase heard limit time }
{
    badge_at(phase.into(), heard, limit, time).into()
}

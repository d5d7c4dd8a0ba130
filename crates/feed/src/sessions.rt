// What a message of the session makes of the feed (document 01, "The feed").
ghost use Rattle.std.specs.Prelude.{◌≡◌, ℕ, ◌≤◌};
ghost use Rattle.feed.specs.Messages.{kind as kind_in};
ghost use Rattle.feed.specs.Events.{Tables, Message};
ghost use Rattle.feed.specs.Answers.{last_seq_num};
ghost use Rattle.feed.specs.Steps.{logged_on, clears_on, clears, taken, state_of};
ghost use Rattle.feed.specs.Code.Judging.{cleared_if, read_as};

use super::messages::{LAST_AT, status_in};
use super::{Feed, Kind, Phase, Session, Status};

// Whether a logon clears the tables, by its status and whether the last accepted connect was fresh.
#[tactic(auto, unfolding(crate::specs::Steps::clears_on))]
fn is_cleared_by(status: Option<Status>, fresh: bool) -> bool
    ensures { result ≡ clears_on (read_as status) fresh }
{
    match status {
        Some(Status::Opens) => fresh,
        Some(Status::Refills) => true,
        Some(Status::Stays | Status::Closes) | None => false,
    }
}

// What a message of the session does.
impl Feed {
    // What a logon's status makes of the feed; nothing, where it is not listed.
    #[tactic(auto, unfolding(crate::specs::Steps::logged_on, crate::specs::Steps::clears_on))]
    fn logged_on(self, status: Option<Status>) -> Feed
        ensures { (x : Tables) → state_of result (cleared_if (clears_on (read_as status) self.fresh) x) ≡ logged_on (read_as status) (state_of self x) }
    {
        match status {
            Some(Status::Opens) if self.fresh => self.forgotten().live(),
            Some(Status::Opens) => self.live(),
            Some(Status::Refills) => self.forgotten().in_phase(Phase::Refreshing),
            Some(Status::Closes) => self.in_phase(Phase::Closed),
            Some(Status::Stays) | None => self,
        }
    }

    // Whether a session's message that is taken clears the tables.
    #[tactic(auto, unfolding(crate::specs::Steps::clears))]
    pub(crate) fn is_clearing(self, session: Session, message: &[u8]) -> bool
        ensures { result ≡ clears session message.now self.fresh }
    {
        session == Session::Logon && is_cleared_by(status_in(message), self.fresh)
    }

    // The feed after a session's message that is taken: what it does, and the next SeqNum advances.
    #[tactic(auto, using(crate::proofs::Parts::sessions_done), unfolding(crate::specs::Steps::taken, crate::specs::Steps::does, crate::specs::Steps::clears))]
    pub(crate) fn done(self, session: Session, message: &[u8], time: u64) -> Feed
        requires { (Kind.Session session ≡ kind_in message.now) × (self.next ≤ last_seq_num) }
        ensures { (seq internal : ℕ) (x : Tables) → state_of result (cleared_if (clears session message.now self.fresh) x) ≡ taken time (Message seq internal message.now) (state_of self x) }
    {
        let f = self.advanced(time);
        match session {
            Session::SendKey => f.in_phase(Phase::WaitLogon),
            Session::Logon => f.logged_on(status_in(message)),
            Session::Logout => f.in_phase(Phase::Closed),
            Session::Complete => f.completed(wire::number_at::<4>(message, LAST_AT)),
            Session::Refresh | Session::Request => f,
        }
    }
}

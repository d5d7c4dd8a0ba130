// What a message is, and whether its size and its fields are right (document 01, "One unit", answers 12 and 15).
ghost use Rattle.std.specs.Prelude.{◌≡◌, false, [], ◌∷◌};
ghost use Rattle.ground.specs.Choice.{one_of};
ghost use Rattle.ladder.specs.Message.{book_sized};
ghost use Rattle.feed.specs.Messages.{datum_of, kind_of, kind as kind_in, sized, wrong_size, status_of, logon_status, listed};
ghost use Rattle.feed.specs.Code.Judging.{read_as};

use super::{Datum, Kind, Session, Status};

// The bytes of a control message, and where it has its status, a logon its own, and 203 its number.
const CONTROL_BYTES: usize = 8;

const STATUS_AT: usize = 4;

const LOGON_STATUS_AT: usize = 6;

pub(crate) const LAST_AT: usize = 4;

// What a market message of a type brings.
impl From<u64> for Datum {
    ghost from_gives = { λ t d. d ≡ datum_of t };

    #[tactic(auto, unfolding(crate::specs::Messages::datum_of, ground::specs::Choice::pick))]
    fn from(t: u64) -> Datum {
        match t {
            53 => Datum::Book,
            _ if strips::is_strip(t) => Datum::Strip,
            _ => Datum::Other,
        }
    }
}

// What a message is, by its type.
impl From<u64> for Kind {
    ghost from_gives = { λ t k. k ≡ kind_of t };

    #[tactic(auto, unfolding(crate::specs::Messages::kind_of, ground::specs::Choice::pick))]
    fn from(t: u64) -> Kind {
        match t {
            203 => Kind::Session(Session::Complete),
            1101 | 1201 => Kind::Session(Session::Request),
            1102 => Kind::Session(Session::Logon),
            1103 => Kind::Session(Session::Logout),
            1105 => Kind::Session(Session::SendKey),
            1202 => Kind::Session(Session::Refresh),
            _ => Kind::Market(t.into()),
        }
    }
}

// Whether a book message has 12 + 24 x NoEntries bytes.
#[tactic(auto, unfolding(ladder::specs::Message::book_sized))]
fn is_book_sized(m: &[u8]) -> bool
    ensures { result ≡ book_sized m.now }
{
    let n = wire::number_at::<1>(m, ladder::NO_ENTRIES_AT) as usize;
    m.len() == ladder::ENTRIES_AT + ladder::ENTRY_BYTES * n
}

// Whether a session's message has the size of its type.
#[tactic(auto, unfolding(crate::specs::Messages::sized))]
fn is_session_sized(session: Session, m: &[u8]) -> bool
    ensures { result ≡ sized (Kind.Session session) m.now }
{
    match session {
        Session::Logon | Session::Logout | Session::Refresh | Session::Complete => {
            m.len() == CONTROL_BYTES
        }
        Session::SendKey | Session::Request => true,
    }
}

// Whether a message has the size of its type.
#[tactic(auto, unfolding(crate::specs::Messages::sized))]
fn is_sized(kind: Kind, m: &[u8]) -> bool
    ensures { result ≡ sized kind m.now }
{
    match kind {
        Kind::Session(session) => is_session_sized(session, m),
        Kind::Market(datum) => match datum {
            Datum::Book => is_book_sized(m),
            Datum::Strip => strips::is_sized(m),
            Datum::Other => true,
        },
    }
}

// What a logon's status does, where the status is listed.
#[tactic(auto, unfolding(crate::specs::Messages::status_of, ground::specs::Choice::pick))]
fn status_of(n: u64) -> Option<Status>
    ensures { read_as result ≡ status_of n }
{
    match n {
        0 | 2 => Some(Status::Opens),
        101 => Some(Status::Refills),
        1 | 3 | 8 => Some(Status::Stays),
        5 | 6 | 100 | 104 | 105 => Some(Status::Closes),
        _ => None,
    }
}

// What a logon does, where its status is listed.
pub(crate) fn status_in(m: &[u8]) -> Option<Status>
    ensures { read_as result ≡ status_of (logon_status m.now) }
{
    status_of(wire::number_at::<1>(m, LOGON_STATUS_AT))
}

// Whether a session's message has a status that is listed, where it has one.
#[tactic(auto, unfolding(crate::specs::Messages::listed, crate::specs::Messages::listed_status, ground::specs::Choice::one_of))]
fn is_session_listed(session: Session, m: &[u8]) -> bool
    ensures { result ≡ listed (Kind.Session session) m.now }
{
    match session {
        Session::Logon => status_in(m).is_some(),
        Session::Logout => matches!(wire::number_at::<1>(m, STATUS_AT), 6 | 102 | 103),
        Session::Refresh => wire::number_at::<1>(m, STATUS_AT) == 0,
        Session::SendKey | Session::Complete | Session::Request => true,
    }
}

// A message already cut, with its two numbers and what it is by its type.
#[derive(Clone, Copy)]
pub(crate) struct Arrival<'a> {
    pub(crate) seq: u32,
    pub(crate) internal: u32,
    pub(crate) message: &'a [u8],
    pub(crate) kind: Kind,
    ghost typed: { kind ≡ kind_in message.now },
}

impl<'a> Arrival<'a> {
    // The two numbers and a message already cut.
    pub(crate) fn new(seq: u32, internal: u32, message: &'a [u8]) -> Arrival<'a>
        ensures { (result.seq ≡ seq) × (result.internal ≡ internal) × (result.message.now ≡ message.now) }
    {
        Arrival {
            seq,
            internal,
            message,
            kind: wire::number_at::<2>(message, 2).into(),
        }
    }

    // Whether the message's size is wrong, or it has under 4 bytes or is not MsgSize long.
    #[tactic(auto, unfolding(crate::specs::Messages::wrong_size))]
    pub(crate) fn is_wrong(self) -> bool
        ensures { result ≡ wrong_size self.entry.message.now }
    {
        let m = self.message;
        m.len() < 4 || wire::number_in::<2>(m, 0) as usize != m.len() || !is_sized(self.kind, m)
    }

    // Whether the fields of the message, which has the right size, are listed.
    #[tactic(auto, using(crate::proofs::Parts::book_right), unfolding(crate::specs::Messages::listed))]
    pub(crate) fn is_listed(self) -> bool
        requires { wrong_size self.message.now ≡ false }
        ensures { result ≡ listed self.entry.kind self.entry.message.now }
    {
        match self.kind {
            Kind::Session(session) => is_session_listed(session, self.message),
            Kind::Market(datum) => match datum {
                Datum::Book => books::is_listed(self.message),
                Datum::Strip => strips::is_listed(self.message),
                Datum::Other => true,
            },
        }
    }
}

// What home tells west.
ghost use Rattle.std.specs.Prelude.{◌≡◌};
ghost use Rattle.purge_relay.specs.Body.{is_same_body, SameSaysEqual};
ghost use Rattle.purge_relay.specs.AsModel.{body_of};

use farm_base::Moment;
use wiki_titles::{ClientId, Title};

/// What a message says. Its moments are home's.
#[derive(Clone, Debug, Drop)]
pub enum Body {
    /// The title has changed: caches are to hold it off.
    Purge {
        /// The number of this purge, which is that of its message.
        purge: u64,
        title: Title,
        /// When it was issued.
        issued: Moment,
    },
    /// The client has made an edit.
    Position {
        client: ClientId,
        /// Which of the client's edits it is, counted from 1.
        index: u64,
        /// The number of its entry in the history, counted from 1.
        entry: u64,
        /// When it was committed.
        stamp: Moment,
    },
}

impl Body {
    /// Whether the two say the same, word for word. It takes no memory.
    pub fn is_same(&self, other: &Body) -> bool
        ensures { result ≡ is_same_body (body_of self.now) (body_of other.now) }
    {
        match self {
            Body::Purge {
                purge,
                title,
                issued,
            } => match other {
                Body::Purge {
                    purge: number,
                    title: name,
                    issued: at,
                } => purge == number && title.text() == name.text() && issued == at,
                Body::Position { .. } => false,
            },
            Body::Position {
                client,
                index,
                entry,
                stamp,
            } => match other {
                Body::Position {
                    client: id,
                    index: count,
                    entry: number,
                    stamp: at,
                } => client == id && index == count && entry == number && stamp == at,
                Body::Purge { .. } => false,
            },
        }
    }
}

/// Two bodies say the same if and only if they are equal.
pub fn same_says_equal()
    ensures { SameSaysEqual }
{}

/// A message and its number.
#[derive(Clone, Debug, Drop)]
pub struct Message {
    /// Counted from 1, in the order in which messages were issued.
    pub number: u64,
    /// What it says.
    pub body: Body,
}

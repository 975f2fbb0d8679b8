// The messages that a wire has carried, as a list that only clauses read: it takes no memory.
ghost use Rattle.std.specs.Prelude.{◌≡◌, List, [], ◌∷◌, ◌++◌};
ghost use Rattle.std.specs.Borrow.{ftrue};
ghost use Rattle.purge_relay.specs.declared.message.Message.{Message};

use crate::message::Message;
use std::marker::Model;

/// Messages in order. Its methods do nothing at run time.
#[derive(Drop)]
pub struct Past {
    /// All that were carried, the first one first.
    pub ghost messages: { List Message },
}

impl Model for Past {
    ghost also_owns = { λ _. ftrue };
}

// A struct with `also_owns` has neither by itself. This one owns nothing.
unsafe impl Send for Past {}

unsafe impl Sync for Past {}

impl Past {
    // No message.
    pub(crate) fn new() -> Past
        ensures { result.messages ≡ [] }
    {
        Past {}
    }

    // One more.
    pub(crate) fn with(_before: &Past, _message: &Message) -> Past
        ensures { result.messages ≡ _before.now.messages ++ _message.now ∷ [] }
    {
        Past {}
    }
}

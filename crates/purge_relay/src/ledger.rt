// All messages that were issued: reserve room, issue, note what became of one, find the next to send.
ghost use Rattle.std.specs.Prelude.{◌≡◌, ◌+◌, ◌-◌, ◌<◌, ◌≤◌, [], ◌∷◌, ◌++◌, length, vec_len, option_map, slice_get, IfSome, IfNone, OnOk, OnErr};
ghost use Rattle.std.specs.Option.{option_copied};
ghost use Rattle.std.specs.Vec.{vec_capacity};
ghost use Rattle.wiki_model.specs.Limits.{greatest_moment};
ghost use Rattle.purge_relay.specs.LedgerRow.{new_row, dropped, sent, with_receipt, receipt_at, is_dropped_row, IsSmallBody, IsSmallReceipt};
ghost use Rattle.purge_relay.specs.Ledger.{next_number, row_at, place_of, changed_at, with_purge, with_position, AreSent, IsFirstUnsent, IsSentTo, unsent_in};

use crate::ledger_row::{LedgerRow, Receipt};
use crate::message::{Body, Message};
use farm_base::{Memory, Moment, Region};
use std::alloc::Global;
use std::marker::Model;
use wiki_titles::{ClientId, Title};

/// The numbers of a purge and of its message, which are the same.
#[derive(Clone, Copy, Debug, PartialEq, Eq)]
pub struct Issued {
    /// The purge's number, by which receipts are found.
    pub purge: u64,
    /// The number of the message that tells west of it.
    pub message: u64,
}

/// All messages that were issued, in the order of their numbers, with what became of them, and the room reserved
/// for more. Each call takes constant time, but for `mark_sent`, whose calls together take one step a message, and
/// `reserve`, which may move the rows.
#[derive(Drop)]
pub struct Ledger {
    /// The row of message `n` is at `n - 1`.
    rows: Vec<LedgerRow>,
    /// How many more messages the rows have room for, at least.
    spare: u32,
    /// How many of the first messages were sent before one that was not.
    sent_to: usize,
}

impl Model for Ledger {
    ghost use Rattle.std.specs.Vec.{vec_capacity};
    ghost use Rattle.purge_relay.specs.Ledger.{LedgerState, IsLedger};

    ghost Value = { LedgerState };

    ghost view = { λ l. record { rows = l.rows.items; spare = l.spare } };

    ghost invariant = { λ l. IsLedger l.rows.items l.spare (vec_capacity l.rows) l.sent_to };
}

impl Ledger {
    /// A ledger without messages and without room. It takes no memory.
    pub fn new(alloc: Global) -> Self
        ensures { result ≡ record { rows = []; spare = 0 } }
    {
        Ledger {
            rows: Vec::new(alloc),
            spare: 0,
            sent_to: 0,
        }
    }

    /// Reserves room for this many more messages. If memory is refused nothing has changed.
    pub fn reserve(&mut self, messages: u32) -> Result<(), Memory>
        ensures ok { OnOk result (self.new ≡ record self.old { spare = self.old.spare + messages }) }
        ensures err { OnErr result (self.new ≡ self.old) }
    {
        let Some(spare) = self.spare.checked_add(messages) else {
            return Err(Memory);
        };
        self.rows.reserve(spare as usize)?;
        self.spare = spare;
        Ok(())
    }

    /// Gives back room for this many messages.
    pub fn release(&mut self, messages: u32)
        requires { messages ≤ self.old.spare }
        ensures { self.new ≡ record self.old { spare = self.old.spare - messages } }
    {
        self.spare -= messages;
    }

    /// How many more messages there is room for.
    pub fn spare(&self) -> u32
        ensures { result ≡ self.now.spare }
    {
        self.spare
    }

    /// Issues a purge with its message, at home's moment. It takes no memory.
    pub fn issue_purge(&mut self, title: Title, at: Moment) -> Issued
        requires room { 0 < self.old.spare }
        requires small { at ≤ greatest_moment }
        ensures rows { self.new ≡ with_purge title at self.old }
        ensures numbers { result ≡ record { purge = next_number self.old; message = next_number self.old } }
    {
        let purge = self.rows.len() as u64 + 1;
        let body = Body::Purge {
            purge,
            title,
            issued: at,
        };
        self.spare -= 1;
        let message = add(&mut self.rows, body);
        Issued { purge, message }
    }

    /// Issues the position of a client, and answers the number of its message. It takes no memory.
    pub fn issue_position(&mut self, client: ClientId, index: u64, entry: u64, stamp: Moment) -> u64
        requires room { 0 < self.old.spare }
        requires small { stamp ≤ greatest_moment }
        ensures rows { self.new ≡ with_position client index entry stamp self.old }
        ensures number { result ≡ next_number self.old }
    {
        let body = Body::Position {
            client,
            index,
            entry,
            stamp,
        };
        self.spare -= 1;
        add(&mut self.rows, body)
    }

    /// How many messages were issued.
    pub fn issued(&self) -> u64
        ensures { result ≡ length self.now.rows }
    {
        self.rows.len() as u64
    }

    /// The message of this number; None if no message has it.
    #[tactic(auto, using(crate::proofs::Changes::row_found, crate::proofs::Changes::row_none))]
    pub fn message(&self, number: u64) -> Option<&Message>
        ensures value { option_copied result ≡ option_map (λ row. row.message) (row_at self.now.rows number) }
        ensures number { IfSome result (λ message. message.now.number ≡ number) }
        ensures small { IfSome result (λ message. IsSmallBody message.now.body) }
    {
        match place_of(&self.rows, number) {
            Some(place) => Some(&self.rows[place].message),
            None => None,
        }
    }

    /// Whether the message of this number was dropped; false if there is none.
    #[tactic(auto, using(crate::proofs::Changes::row_found, crate::proofs::Changes::row_none))]
    pub fn is_dropped(&self, number: u64) -> bool
        ensures { result ≡ is_dropped_row (row_at self.now.rows number) }
    {
        match place_of(&self.rows, number) {
            Some(place) => self.rows[place].dropped,
            None => false,
        }
    }

    /// Drops the message of this number, if there is one: it can be carried no more.
    #[tactic(auto, using(crate::proofs::Changes::unchanged))]
    pub fn drop_message(&mut self, number: u64)
        ensures { self.new ≡ changed_at dropped number self.old }
    {
        if let Some(place) = place_of(&self.rows, number) {
            self.rows[place].dropped = true;
        }
    }

    /// Notes that the region received the purge of this number at its moment. A number that is no purge's changes
    /// nothing.
    #[tactic(auto, using(crate::proofs::Changes::unchanged))]
    pub fn receive(&mut self, purge: u64, region: Region, at: Moment)
        requires { at ≤ greatest_moment }
        ensures { self.new ≡ changed_at (with_receipt region at) purge self.old }
    {
        if let Some(place) = place_of(&self.rows, purge) {
            self.rows[place].receive(region, at);
        }
    }

    /// When the region received the purge of this number; None if it did not.
    #[tactic(auto, using(crate::proofs::Changes::row_found, crate::proofs::Changes::row_none))]
    pub fn receipt(&self, purge: u64, region: Region) -> Option<Receipt>
        ensures value { result ≡ receipt_at region (row_at self.now.rows purge) }
        ensures small { IfSome result IsSmallReceipt }
    {
        match place_of(&self.rows, purge) {
            Some(place) => match region {
                Region::Home => self.rows[place].home,
                Region::West => self.rows[place].west,
            },
            None => None,
        }
    }

    /// The number of the first message that was not sent; None if all were.
    pub fn first_unsent(&self) -> Option<u64>
        ensures first { IfSome result (λ number. IsFirstUnsent self.now.rows number) }
        ensures none { IfNone result (AreSent self.now.rows (length self.now.rows)) }
        ensures list { result ≡ option_map (λ row. row.message.number) (slice_get (unsent_in self.now.rows) 0) }
    {
        if self.sent_to < self.rows.len() {
            Some(self.sent_to as u64 + 1)
        } else {
            None
        }
    }

    /// Marks the message of this number as sent, if there is one.
    #[tactic(auto, using(crate::proofs::Changes::unchanged))]
    pub fn mark_sent(&mut self, number: u64)
        ensures { self.new ≡ changed_at sent number self.old }
    {
        if let Some(place) = place_of(&self.rows, number) {
            self.rows[place].sent = true;
            self.sent_to = sent_from(&self.rows, self.sent_to);
        }
    }
}

// Adds a message, for which there is room, and answers its number.
fn add(rows: &mut Vec<LedgerRow>, body: Body) -> u64
    requires room { vec_len rows.old < vec_capacity rows.old }
    ensures rows { rows.new.items ≡ rows.old.items ++ new_row (length rows.old.items + 1) body ∷ [] }
    ensures room { vec_capacity rows.old ≤ vec_capacity rows.new }
    ensures number { result ≡ length rows.old.items + 1 }
{
    let number = rows.len() as u64 + 1;
    let row = LedgerRow {
        message: Message { number, body },
        dropped: false,
        sent: false,
        home: None,
        west: None,
    };
    // There is room, so the push is not refused.
    let _ = rows.push(row);
    number
}

// The place of a number in the list, if it has one.
fn place_of(rows: &[LedgerRow], number: u64) -> Option<usize>
    ensures { result ≡ place_of (length rows.now) number }
{
    if 0 < number && number <= rows.len() as u64 {
        Some((number - 1) as usize)
    } else {
        None
    }
}

// How far the messages were sent, from a place before which all were.
#[tactic(auto, using(crate::proofs::Changes::sent_more))]
fn sent_from(rows: &[LedgerRow], from: usize) -> usize
    requires within { from ≤ length rows.now }
    requires before { AreSent rows.now from }
    ensures { IsSentTo rows.now result }
{
    let mut place = from;
    while place < rows.len() && rows[place].sent {
        place += 1;
    }
    place
}

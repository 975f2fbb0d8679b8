// A wire in memory: it gives messages in order, or as a list of deals says.
ghost use Rattle.std.specs.Prelude.{◌≡◌, [], None, Some, drop, find, slice_get, option_map, IfOk, IfSome, IsSome, OnOk, OnErr};
ghost use Rattle.std.specs.List.{list_any};
ghost use Rattle.std.specs.Option.{option_copied};
ghost use Rattle.farm_base.specs.Causes.{counted};
ghost use Rattle.purge_relay.specs.AsModel.{HasSent, HasTaken, empty_after};
ghost use Rattle.purge_relay.specs.Causes.{HasWireFault};
ghost use Rattle.purge_relay.specs.FarmWire.{has_number, carried_by, Takes, Sends};
ghost use Rattle.purge_relay.specs.Kept.{plan_of, names, with_kept, with_waiting, Deals, DealsOut};

use crate::message::Message;
use crate::past::Past;
use crate::wire::{Wire, WireFault};
use std::alloc::{AllocError, Global};
use std::collections::VecDeque;
use std::marker::Model;

/// What one take of a scripted wire does.
#[derive(Clone, Copy, Debug, PartialEq, Eq)]
pub enum Deal {
    /// It gives the message of this number, if one was sent, also if it gave it before.
    Carry(u64),
    /// It gives none.
    Skip,
    /// It fails.
    Fail,
}

/// A wire in memory, which exposes all that it was given and all that it gave, though it keeps neither. It gives what
/// was sent, each message once and in order, or follows a list of deals.
///
/// It keeps the messages that are still to come: in order those that were sent and not yet taken, by a list those that
/// a deal still to come names when they are sent.
#[derive(Drop)]
pub struct FarmWire {
    /// What was sent and not yet taken, in order; nothing, if there is a script.
    waiting: VecDeque<Message>,
    /// What the next takes do; None gives what was sent in order.
    script: Option<Script>,
    /// All that it was given, in order, for clauses only.
    sent: Past,
    /// All that it gave, in order, for clauses only.
    taken: Past,
    /// How many takes failed.
    faults: u64,
    /// How many sends were refused.
    refused: u64,
    /// How many takes gave no message.
    empty: u64,
}

impl Model for FarmWire {
    ghost use Rattle.purge_relay.specs.FarmWire.{Line};
    ghost use Rattle.purge_relay.specs.Kept.{Keeps, plan_of};

    ghost Value = { Line };

    ghost view = { λ w. record {
      sent = w.sent.messages;
      taken = w.taken.messages;
      plan = plan_of w.script;
      faults = w.faults;
      refused = w.refused;
      empty = w.empty;
    } };

    ghost invariant = { λ w. Keeps w.script w.waiting.items w.sent.messages w.taken.messages };
}

impl FarmWire {
    ghost use Rattle.purge_relay.specs.FarmWire.{new_line};

    /// A wire that gives each message once, in the order in which they were sent.
    pub fn new(alloc: Global) -> Self
        ensures { result ≡ new_line None }
    {
        FarmWire::with_script(alloc, None)
    }

    /// A wire whose takes follow a list, one deal each, and then give nothing.
    pub fn scripted(alloc: Global, plan: Vec<Deal>) -> Self
        ensures { result ≡ new_line (Some plan.items) }
    {
        FarmWire::with_script(alloc, Some(Script::new(alloc, plan)))
    }

    fn with_script(alloc: Global, script: Option<Script>) -> Self
        requires empty { IfSome script (λ s. s.kept ≡ []) }
        ensures { result ≡ new_line (plan_of script) }
    {
        FarmWire {
            waiting: VecDeque::new(alloc),
            script,
            sent: Past::new(),
            taken: Past::new(),
            faults: 0,
            refused: 0,
            empty: 0,
        }
    }
}

impl Wire for FarmWire {
    ghost carried = { carried_by };

    ghost faults = { λ w. w.faults };

    ghost refused = { λ w. w.refused };

    ghost empty = { λ w. w.empty };

    fn send(&mut self, message: &Message) -> Result<(), WireFault>
        ensures sent { OnOk result (HasSent (carried_by self.old) (carried_by self.new) message.now) }
        ensures kept { OnErr result (carried_by self.new ≡ carried_by self.old) }
        ensures accepted { OnOk result (self.new.refused ≡ self.old.refused) }
        ensures counted { OnErr result (self.new.refused ≡ counted self.old.refused) }
        ensures takes { self.new.empty ≡ self.old.empty }
        ensures cause { HasWireFault self.old.faults self.new.faults result }
        ensures exact { Sends self.old self.new message.now result }
    {
        match keep(&mut self.waiting, &mut self.script, message) {
            Ok(()) => {
                self.sent = Past::with(&self.sent, message);
                Ok(())
            }
            Err(_) => {
                self.refused = self.refused.saturating_add(1);
                Err(WireFault::Memory)
            }
        }
    }

    fn take(&mut self) -> Result<Option<Message>, WireFault>
        ensures taken { IfOk result (λ m. HasTaken (carried_by self.old) (carried_by self.new) m) }
        ensures kept { OnErr result (carried_by self.new ≡ carried_by self.old) }
        ensures counted { self.new.empty ≡ empty_after result self.old.empty }
        ensures sends { self.new.refused ≡ self.old.refused }
        ensures cause { HasWireFault self.old.faults self.new.faults result }
        ensures exact { Takes self.old self.new result }
    {
        let result = take_next(&mut self.waiting, &mut self.script);
        match &result {
            Ok(Some(message)) => self.taken = Past::with(&self.taken, message),
            Ok(None) => self.empty = self.empty.saturating_add(1),
            Err(WireFault::Memory) => self.empty = self.empty.saturating_add(1),
            Err(WireFault::Failed) => {
                self.faults = self.faults.saturating_add(1);
                self.empty = self.empty.saturating_add(1);
            }
        }
        result
    }
}

// Keeps a copy of the message, if a take may give it. If memory is refused nothing has changed.
fn keep(
    waiting: &mut VecDeque<Message>,
    script: &mut Option<Script>,
    message: &Message,
) -> Result<(), AllocError>
    ensures waits { OnOk result (waiting.new.items ≡ with_waiting script.old message.now waiting.old.items) }
    ensures named { OnOk result (script.new ≡ option_map (with_kept message.now) script.old) }
    ensures waiting { OnErr result (waiting.new.items ≡ waiting.old.items) }
    ensures script { OnErr result (script.new ≡ script.old) }
{
    match script {
        None => waiting.push_back(message.clone()?)?,
        Some(script) => script.keep(message)?,
    }
    Ok(())
}

// Takes the first that waits, or as the script says. If memory is refused the message stays ready.
fn take_next(
    waiting: &mut VecDeque<Message>,
    script: &mut Option<Script>,
) -> Result<Option<Message>, WireFault>
    ensures { Deals script.old script.new waiting.old.items waiting.new.items result }
{
    match script {
        None => Ok(take_first(waiting)),
        Some(script) => script.deal(),
    }
}

fn take_first(waiting: &mut VecDeque<Message>) -> Option<Message>
    ensures first { result ≡ slice_get waiting.old.items 0 }
    ensures rest { waiting.new.items ≡ drop 1 waiting.old.items }
{
    waiting.pop_front()
}

// A list of deals, of which the first `done` are done.
#[derive(Drop)]
struct Script {
    deals: Vec<Deal>,
    // At most the number of deals.
    done: usize,
    // The messages that a deal named when they were sent, in order.
    kept: Vec<Message>,
}

impl Model for Script {
    ghost use Rattle.std.specs.Prelude.{◌≤◌, drop, length};
    ghost use Rattle.purge_relay.specs.Kept.{ScriptState};

    ghost Value = { ScriptState };

    ghost view = { λ s. record { deals = drop s.done s.deals.items; kept = s.kept.items } };

    ghost invariant = { λ s. s.done ≤ length s.deals.items };
}

impl Script {
    fn new(alloc: Global, deals: Vec<Deal>) -> Self
        ensures { result ≡ record { deals = deals.items; kept = [] } }
    {
        Script {
            deals,
            done: 0,
            kept: Vec::new(alloc),
        }
    }

    // Keeps a copy of the message, if a deal names it. If memory is refused nothing has changed.
    fn keep(&mut self, message: &Message) -> Result<(), AllocError>
        ensures ok { OnOk result (self.new ≡ with_kept message.now self.old) }
        ensures err { OnErr result (self.new ≡ self.old) }
    {
        if self.names(message.number) {
            self.kept.push(message.clone()?)?;
        }
        Ok(())
    }

    // Whether a deal that is left names the message of this number.
    fn names(&self, number: u64) -> bool
        ensures { result ≡ list_any (names number) self.now.deals }
    {
        let (_, left) = self.deals.split_at(self.done);
        left.iter().any(|deal| is_naming(deal, number))
    }

    // Does the next deal. If memory is refused nothing has changed.
    #[tactic(auto, using(crate::proofs::Kept::refused))]
    fn deal(&mut self) -> Result<Option<Message>, WireFault>
        ensures { DealsOut self.old self.new result }
    {
        match self.first() {
            Some(Deal::Carry(number)) => {
                let Ok(given) = copy_of(&self.kept, number) else {
                    return Err(WireFault::Memory);
                };
                self.advance();
                Ok(given)
            }
            Some(Deal::Fail) => {
                self.advance();
                Err(WireFault::Failed)
            }
            Some(Deal::Skip) | None => {
                self.advance();
                Ok(None)
            }
        }
    }

    fn first(&self) -> Option<Deal>
        ensures { result ≡ slice_get self.now.deals 0 }
    {
        self.deals.get(self.done).copied()
    }

    // One deal is done.
    fn advance(&mut self)
        ensures deals { self.new.deals ≡ drop 1 self.old.deals }
        ensures kept { self.new.kept ≡ self.old.kept }
    {
        if self.done < self.deals.len() {
            self.done += 1;
        }
    }
}

fn is_naming(deal: &Deal, number: u64) -> bool
    ensures { result ≡ names number deal.now }
{
    match deal {
        Deal::Carry(n) => *n == number,
        Deal::Skip | Deal::Fail => false,
    }
}

// A copy of the first message with this number. One pass over them.
fn copy_of(kept: &[Message], number: u64) -> Result<Option<Message>, AllocError>
    ensures ok { IfOk result (λ found. found ≡ find (has_number number) kept.now) }
    ensures err { OnErr result (IsSome (find (has_number number) kept.now)) }
{
    match find_kept(kept, number) {
        Some(message) => Ok(Some(message.clone()?)),
        None => Ok(None),
    }
}

fn find_kept(kept: &[Message], number: u64) -> Option<&Message>
    ensures { option_copied result ≡ find (has_number number) kept.now }
{
    kept.iter().find(|message| message.number == number)
}

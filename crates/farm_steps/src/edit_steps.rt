// The steps of an edit.
ghost use Rattle.std.specs.Prelude.{◌≡◌, ◌≤◌, ◌+◌, IsTrue, Some, None, IsSome, IfSome, length, option_map};
ghost use Rattle.wiki_model.specs.Limits.{greatest_moment, bound_max};
ghost use Rattle.wiki_model.specs.History.{stamp_at};
ghost use Rattle.chronology_store.specs.ChronologyStore.{is_reserved};
ghost use Rattle.edit_core.specs.AsModel.{refused_of};
ghost use Rattle.region_state.specs.AsModel.{answer_of};
ghost use Rattle.farm_steps.specs.RequestMap.{kept_at, open_at, arrived_edit, begun_edit, room};
ghost use Rattle.region_state.specs.RegionState.{IsBefore};
ghost use Rattle.farm_steps.specs.EditSteps.{outcome_answer, ReceivesSecond, CommitsEdit, CommitsTo, EndsBegin};
ghost use Rattle.farm_steps.specs.EditSteps.{BeginsTo};

use crate::open_request::OpenRequest;
use crate::relay_steps::receive;
use crate::request_map::{Requests, close, put, take_arrived_edit, take_begun_edit};
use edit_core::{Begun, BegunEdit, CommitOutcome, EditRefusal};
use farm_base::{Moment, Region};
use page_render::Page;
use purge_relay::{Issued, Ledger};
use region_state::{Answer, RegionState};
use revision_keeper::Keeper;
use wan_cache::RegionStore;

fn outcome_answer(outcome: Result<CommitOutcome, EditRefusal>) -> Answer
    ensures { answer_of result ≡ outcome_answer outcome }
{
    match outcome {
        Ok(outcome) => Answer::Saved(outcome.note),
        Err(why) => refused(why),
    }
}

fn refused(why: EditRefusal) -> Answer
    ensures { answer_of result ≡ refused_of why }
{
    match why {
        EditRefusal::Conflict { base, current } => Answer::Conflict { base, current },
        EditRefusal::TokenReused { entry } => Answer::Token { entry },
        EditRefusal::Store => Answer::Store,
        EditRefusal::Memory => Answer::Memory,
    }
}

/// The step `commit`: closes the request. A commit that comes late is purged again, at home at once.
pub fn commit<K: Keeper, S: RegionStore<Page>>(
    keeper: &mut K,
    ledger: &mut Ledger,
    home: &mut RegionState<S>,
    requests: &mut Requests,
    now: Moment,
    id: u64,
) -> Answer
    requires room { room requests.old.entries ≤ ledger.old.spare }
    requires reserved { IfSome (begun_edit (open_at requests.old.entries id))
        (λ begun. IsTrue (is_reserved home.old.positions begun.ask.client)) }
    requires there { IsSome home.old.cache }
    requires before { IsBefore S.cache home.old now }
    requires small { now ≤ greatest_moment }
    requires later { IfSome (K.content keeper.old) (λ h. stamp_at h (length h) ≤ now) }
    ensures { CommitsTo S.cache (K.content keeper.old) (K.content keeper.new) (K.faults keeper.old)
        (K.faults keeper.new) home.old home.new ledger.old ledger.new now id requests.old.entries requests.new.entries
        (answer_of result) (begun_edit (open_at requests.old.entries id)) }
{
    let Some(begun) = take_begun_edit(requests, id) else {
        return Answer::NotOpen { id };
    };
    // Room for two messages was reserved when the edit was begun.
    commit_edit(keeper, ledger, home, begun, now)
}

fn commit_edit<K: Keeper, S: RegionStore<Page>>(
    keeper: &mut K,
    ledger: &mut Ledger,
    home: &mut RegionState<S>,
    begun: BegunEdit,
    now: Moment,
) -> Answer
    requires spare { 2 ≤ ledger.old.spare }
    requires reserved { IsTrue (is_reserved home.old.positions begun.ask.client) }
    requires there { IsSome home.old.cache }
    requires before { IsBefore S.cache home.old now }
    requires small { now ≤ greatest_moment }
    requires later { IfSome (K.content keeper.old) (λ h. stamp_at h (length h) ≤ now) }
    ensures { CommitsEdit S.cache (K.content keeper.old) (K.content keeper.new) (K.faults keeper.old)
        (K.faults keeper.new) home.old home.new ledger.old ledger.new now (answer_of result) begun }
{
    let outcome = home.commit(keeper, ledger, begun, now);
    receive_second(ledger, home, second_purge(&outcome), now);
    outcome_answer(outcome)
}

/// Home receives the second purge of a late commit.
fn receive_second<S: RegionStore<Page>>(
    ledger: &mut Ledger,
    home: &mut RegionState<S>,
    second: Option<Issued>,
    now: Moment,
)
    requires there { IsSome home.old.cache }
    requires before { IsBefore S.cache home.old now }
    requires small { now ≤ greatest_moment }
    ensures { ReceivesSecond S.cache home.old home.new ledger.old ledger.new now second }
{
    if let Some(issued) = second {
        receive(ledger, Region::Home, home, issued.purge, now);
    }
}

fn second_purge(outcome: &Result<CommitOutcome, EditRefusal>) -> Option<Issued>
    ensures { result ≡ Rattle.farm_steps.specs.EditSteps.second_purge_in outcome.now }
{
    match outcome {
        Ok(outcome) => outcome.second_purge,
        Err(_) => None,
    }
}

/// When an edit begins, and how long after it its commit still counts as early.
#[derive(Clone, Copy, Debug, PartialEq, Eq)]
pub struct EditTerm {
    /// Home's moment at which it begins.
    pub now: Moment,
    /// In milliseconds, at most the greatest that a bound may be. A commit after it purges its title once more.
    pub delay: u64,
}

/// The step `begin`: an edit that the history does not decide has its purge issued, and received at home.
pub fn begin<K: Keeper, S: RegionStore<Page>>(
    keeper: &mut K,
    ledger: &mut Ledger,
    home: &mut RegionState<S>,
    requests: &mut Requests,
    term: EditTerm,
    id: u64,
) -> Option<Answer>
    requires there { IsSome home.old.cache }
    requires before { IsBefore S.cache home.old term.now }
    requires small { term.now ≤ greatest_moment }
    requires delay { term.delay ≤ bound_max }
    ensures { BeginsTo S.cache (K.content keeper.old) (K.content keeper.new) (K.faults keeper.old) (K.faults keeper.new)
        home.old home.new ledger.old ledger.new term.now term.delay id requests.old.entries requests.new.entries
        (option_map answer_of result) (arrived_edit (open_at requests.old.entries id)) }
{
    let Some(ask) = take_arrived_edit(requests, id) else {
        return Some(Answer::NotOpen { id });
    };
    let begun = home.begin(keeper, ledger, ask, term.now, term.delay);
    end_begin(ledger, home, requests, begun, term.now, id)
}

/// What `begin` has found: a begun edit stays open, and home receives its purge.
fn end_begin<S: RegionStore<Page>>(
    ledger: &mut Ledger,
    home: &mut RegionState<S>,
    requests: &mut Requests,
    begun: Result<Begun, EditRefusal>,
    now: Moment,
    id: u64,
) -> Option<Answer>
    requires place { kept_at requests.old.entries id ≡ Some OpenRequest.Taken }
    requires there { IsSome home.old.cache }
    requires before { IsBefore S.cache home.old now }
    requires small { now ≤ greatest_moment }
    ensures { EndsBegin S.cache home.old home.new ledger.old ledger.new now id requests.old.entries requests.new.entries
        (option_map answer_of result) begun }
{
    match begun {
        Ok(Begun::Started(begun)) => {
            receive(ledger, Region::Home, home, begun.issued.purge, now);
            let _ = put(requests, id, OpenRequest::EditBegun(begun));
            None
        }
        Ok(Begun::Already(note)) => {
            close(requests, id);
            Some(Answer::Saved(note))
        }
        Err(why) => {
            close(requests, id);
            Some(refused(why))
        }
    }
}

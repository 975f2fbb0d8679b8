// The map of open requests: a step takes a request out of its place and puts another in, which takes no memory.
ghost use Rattle.std.specs.Prelude.{◌≡◌, ◌+◌, ◌≤◌, Some, None, IsSome, OnOk, OnErr, IfSome, IfNone, is_some};
ghost use Rattle.farm_steps.specs.RequestMap.{kept_at, open_at, arrived_edit, begun_edit, arrived_view, waited_view};
ghost use Rattle.farm_steps.specs.RequestMap.{looked_view, snapped_view, room, Places};

use crate::open_request::OpenRequest;
use edit_core::{BegunEdit, EditAsk};
use farm_base::Memory;
use region_state::{OpenView, Snapped};
use std::collections::BTreeMap;

/// The open requests by id.
pub type Requests = BTreeMap<u64, OpenRequest>;

/// Whether a request of this id is open, at whatever point.
pub fn is_open(requests: &Requests, id: u64) -> bool
    ensures { result ≡ is_some (open_at requests.now.entries id) }
{
    match requests.get(&id) {
        None => false,
        Some(OpenRequest::Taken) => false,
        Some(_) => true,
    }
}

/// Opens a request at an id that has none.
#[tactic(auto, using(crate::proofs::Rooms::room_inserted))]
pub(crate) fn open(requests: &mut Requests, id: u64, request: OpenRequest) -> Result<(), Memory>
    ensures ok { OnOk result (Places requests.old.entries requests.new.entries id (Some request)) }
    ensures err { OnErr result (requests.new.entries ≡ requests.old.entries) }
{
    match requests.insert(id, request) {
        Ok(_) => Ok(()),
        Err(_) => Err(Memory),
    }
}

/// Puts a request in the place of the one that the id has, and gives that one.
#[tactic(auto, using(crate::proofs::Rooms::room_inserted))]
pub(crate) fn put(requests: &mut Requests, id: u64, request: OpenRequest) -> Option<OpenRequest>
    requires { IsSome (kept_at requests.old.entries id) }
    ensures value { result ≡ kept_at requests.old.entries id }
    ensures places { Places requests.old.entries requests.new.entries id (Some request) }
{
    match requests.insert(id, request) {
        Ok(before) => before,
        // Only a new id could be refused.
        Err(_) => None,
    }
}

/// Closes the request of the id, if it has one.
#[tactic(auto, using(crate::proofs::Rooms::room_closed))]
pub(crate) fn close(requests: &mut Requests, id: u64)
    ensures { Places requests.old.entries requests.new.entries id None }
{
    let _ = requests.remove(&id);
}

// The request of the id, if it has come to this point, is taken into a step's hands.

pub(crate) fn take_arrived_edit(requests: &mut Requests, id: u64) -> Option<EditAsk>
    ensures value { result ≡ arrived_edit (open_at requests.old.entries id) }
    ensures stays { IfNone result (requests.new.entries ≡ requests.old.entries) }
    ensures taken { IfSome result (λ _. Places requests.old.entries requests.new.entries id (Some OpenRequest.Taken)) }
{
    match requests.get(&id) {
        Some(OpenRequest::EditArrived(_)) => {}
        _ => return None,
    }
    match put(requests, id, OpenRequest::Taken) {
        Some(OpenRequest::EditArrived(ask)) => Some(ask),
        _ => None,
    }
}

/// A begun edit's step closes it, whatever comes of it: its place is given back with its room.
#[tactic(auto, using(crate::proofs::Rooms::room_closed, crate::proofs::Rooms::room_given))]
pub(crate) fn take_begun_edit(requests: &mut Requests, id: u64) -> Option<BegunEdit>
    ensures value { result ≡ begun_edit (open_at requests.old.entries id) }
    ensures stays { IfNone result (requests.new.entries ≡ requests.old.entries) }
    ensures closed { IfSome result (λ _. Places requests.old.entries requests.new.entries id None) }
    ensures room { IfSome result (λ _. room requests.new.entries + 2 ≤ room requests.old.entries) }
{
    match requests.get(&id) {
        Some(OpenRequest::EditBegun(_)) => {}
        _ => return None,
    }
    match requests.remove(&id) {
        Some(OpenRequest::EditBegun(begun)) => Some(begun),
        _ => None,
    }
}

pub(crate) fn take_arrived_view(requests: &mut Requests, id: u64) -> Option<OpenView>
    ensures value { result ≡ arrived_view (open_at requests.old.entries id) }
    ensures stays { IfNone result (requests.new.entries ≡ requests.old.entries) }
    ensures taken { IfSome result (λ _. Places requests.old.entries requests.new.entries id (Some OpenRequest.Taken)) }
{
    match requests.get(&id) {
        Some(OpenRequest::ViewArrived(_)) => {}
        _ => return None,
    }
    match put(requests, id, OpenRequest::Taken) {
        Some(OpenRequest::ViewArrived(view)) => Some(view),
        _ => None,
    }
}

/// The view with its need.
pub(crate) fn take_waited_view(requests: &mut Requests, id: u64) -> Option<(OpenView, u64)>
    ensures value { result ≡ waited_view (open_at requests.old.entries id) }
    ensures stays { IfNone result (requests.new.entries ≡ requests.old.entries) }
    ensures taken { IfSome result (λ _. Places requests.old.entries requests.new.entries id (Some OpenRequest.Taken)) }
{
    match requests.get(&id) {
        Some(OpenRequest::ViewWaited { .. }) => {}
        _ => return None,
    }
    match put(requests, id, OpenRequest::Taken) {
        Some(OpenRequest::ViewWaited { view, need }) => Some((view, need)),
        _ => None,
    }
}

/// The view with its need.
pub(crate) fn take_looked_view(requests: &mut Requests, id: u64) -> Option<(OpenView, u64)>
    ensures value { result ≡ looked_view (open_at requests.old.entries id) }
    ensures stays { IfNone result (requests.new.entries ≡ requests.old.entries) }
    ensures taken { IfSome result (λ _. Places requests.old.entries requests.new.entries id (Some OpenRequest.Taken)) }
{
    match requests.get(&id) {
        Some(OpenRequest::ViewLooked { .. }) => {}
        _ => return None,
    }
    match put(requests, id, OpenRequest::Taken) {
        Some(OpenRequest::ViewLooked { view, need }) => Some((view, need)),
        _ => None,
    }
}

pub(crate) fn take_snapped_view(requests: &mut Requests, id: u64) -> Option<(OpenView, Snapped)>
    ensures value { result ≡ snapped_view (open_at requests.old.entries id) }
    ensures stays { IfNone result (requests.new.entries ≡ requests.old.entries) }
    ensures taken { IfSome result (λ _. Places requests.old.entries requests.new.entries id (Some OpenRequest.Taken)) }
{
    match requests.get(&id) {
        Some(OpenRequest::ViewSnapped { .. }) => {}
        _ => return None,
    }
    match put(requests, id, OpenRequest::Taken) {
        Some(OpenRequest::ViewSnapped { view, snapped }) => Some((view, snapped)),
        _ => None,
    }
}

// An open request, at the point of its life that it has come to.
use edit_core::{BegunEdit, EditAsk};
use region_state::{OpenView, Snapped};

/// An edit goes from `EditArrived` to `EditBegun`; a view from `ViewArrived` over `ViewWaited` and `ViewLooked` to
/// `ViewSnapped`.
#[derive(Debug, Drop)]
pub enum OpenRequest {
    EditArrived(EditAsk),
    EditBegun(BegunEdit),
    ViewArrived(OpenView),
    /// Its page may not miss the first `need` entries.
    ViewWaited { view: OpenView, need: u64 },
    ViewLooked { view: OpenView, need: u64 },
    ViewSnapped { view: OpenView, snapped: Snapped },
    /// A step has the request in its hands.
    Taken,
}

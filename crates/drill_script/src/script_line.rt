// The lines of a script.
use farm_base::{Bounds, Listed, Moment, Readings, Region};
use region_state::{Asked, EditAsk, ViewAsk};

/// A line of a script. A line of one step has the name of the step.
#[derive(Debug, Drop)]
pub enum ScriptLine {
    /// The weights of the replicas of each region, and the epoch. It is the first line, if it stands at all.
    Farm {
        home: Listed<u16>,
        west: Listed<u16>,
        epoch: Moment,
    },
    /// The bounds of the caches' promises. It is the first line, or follows the line `farm`.
    Bounds(Bounds),
    /// The readings of all later steps; before the first such line both are 0.
    At(Readings),
    /// A beat.
    Beat,
    /// A replica of a region, by its number from 0, applies up to `count` entries.
    Apply {
        region: Region,
        replica: u8,
        count: u32,
    },
    /// A whole edit: it arrives, begins and commits.
    Edit(EditAsk),
    /// A whole view: it arrives, waits, looks, snaps and stores.
    View(ViewAsk),
    /// A request arrives and is kept open under this id, which is greater than each earlier one.
    Arrive {
        id: u64,
        asked: Asked,
    },
    /// The open edit begins.
    Begin {
        id: u64,
    },
    /// The open edit commits.
    Commit {
        id: u64,
    },
    /// The open view asks whether its region has caught up.
    Wait {
        id: u64,
    },
    /// The open view looks into the cache.
    Look {
        id: u64,
    },
    /// The open view takes a snapshot.
    Snap {
        id: u64,
    },
    /// The open view renders its snapshot, stores it and answers.
    Store {
        id: u64,
    },
    /// The message of this number is carried to west, with no body shown.
    Carry {
        number: u64,
    },
    /// The message of this number is dropped.
    Drop {
        number: u64,
    },
    /// The markup of all later pages, 1 or 2.
    Markup(u8),
    /// The last line.
    End,
}

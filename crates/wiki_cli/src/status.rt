// How the program ends.
ghost use Rattle.std.specs.Prelude.{◌≡◌};
ghost use Rattle.wiki_cli.specs.Ends.{exit_number};

/// How a command ended. The program's exit status is its number.
#[derive(Clone, Copy, Debug, PartialEq, Eq)]
pub enum Status {
    /// All was done, and all was written.
    Ok,
    /// The words are no command.
    Usage,
    /// This line is the first outside the grammar, or the one after the last where input ends before `end`.
    Script { line: u64 },
    /// A read failed.
    ReadFault,
    /// A write of the report or of the summary failed.
    WriteFault,
    /// The keeper of the history failed before the first step or after the last.
    StoreFault,
    /// Memory ran out.
    Memory,
    /// The door failed when it was asked for a connection.
    DoorFault,
    /// The history that a script was to begin has entries already.
    NotEmpty { entries: u64 },
    /// The layout breaks this rule first.
    Layout { rule: u8 },
}

impl Status {
    /// The exit status of the program.
    pub fn number(self) -> u8
        ensures { result ≡ exit_number self }
    {
        match self {
            Status::Ok => 0,
            Status::Usage => 2,
            Status::Script { .. } => 3,
            Status::ReadFault => 4,
            Status::WriteFault => 5,
            Status::StoreFault => 6,
            Status::Memory => 7,
            Status::DoorFault => 8,
            Status::NotEmpty { .. } => 9,
            Status::Layout { .. } => 10,
        }
    }
}

// Why the tables did not give what was asked, and the one place where a fault is counted.
ghost use Rattle.std.specs.Prelude.{◌≡◌};
ghost use Rattle.revision_keeper.specs.Causes.{HasFault};
ghost use Rattle.sqlite_keeper.specs.TableFault.{answer_of};
ghost use Rattle.sqlite_keeper.specs.SqliteKeeper.{faults_after};

use revision_keeper::KeepFault;
use sqlite::{Error, ErrorCode};
use std::alloc::AllocError;
use wiki_titles::{TextFault, TitleFault, TokenFault};

/// Why the tables did not give, or take, what was asked.
#[derive(Clone, Copy, Debug, PartialEq, Eq)]
pub enum TableFault {
    /// The database refused it, or a row is not what a history has.
    Refused,
    /// Out of memory.
    Memory,
}

impl From<Error> for TableFault {
    ghost use Rattle.std.specs.Prelude.{◌≡◌};
    ghost use Rattle.sqlite_keeper.specs.TableFault.{fault_of};

    ghost from_gives = { λ error fault. fault ≡ fault_of error };

    fn from(error: Error) -> TableFault {
        match error {
            Error::SqliteFailure(ErrorCode::OutOfMemory) => TableFault::Memory,
            _ => TableFault::Refused,
        }
    }
}

impl From<AllocError> for TableFault {
    ghost use Rattle.std.specs.Prelude.{◌≡◌};
    ghost use Rattle.sqlite_keeper.specs.declared.table_fault.TableFault.TheVariants.{Memory};

    ghost from_gives = { λ _ fault. fault ≡ Memory };

    fn from(_error: AllocError) -> TableFault {
        TableFault::Memory
    }
}

impl From<TitleFault> for TableFault {
    ghost use Rattle.std.specs.Prelude.{◌≡◌};
    ghost use Rattle.sqlite_keeper.specs.TableFault.{title_fault};

    ghost from_gives = { λ error fault. fault ≡ title_fault error };

    fn from(error: TitleFault) -> TableFault {
        match error {
            TitleFault::Memory => TableFault::Memory,
            _ => TableFault::Refused,
        }
    }
}

impl From<TokenFault> for TableFault {
    ghost use Rattle.std.specs.Prelude.{◌≡◌};
    ghost use Rattle.sqlite_keeper.specs.TableFault.{token_fault};

    ghost from_gives = { λ error fault. fault ≡ token_fault error };

    fn from(error: TokenFault) -> TableFault {
        match error {
            TokenFault::Memory => TableFault::Memory,
            _ => TableFault::Refused,
        }
    }
}

impl From<TextFault> for TableFault {
    ghost use Rattle.std.specs.Prelude.{◌≡◌};
    ghost use Rattle.sqlite_keeper.specs.TableFault.{text_fault};

    ghost from_gives = { λ error fault. fault ≡ text_fault error };

    fn from(error: TextFault) -> TableFault {
        match error {
            TextFault::Memory => TableFault::Memory,
            _ => TableFault::Refused,
        }
    }
}

/// Answers what was found, and counts a fault. Nowhere else is one counted; out of memory is not.
pub(crate) fn answer<T>(faults: &mut u64, found: Result<T, TableFault>) -> Result<T, KeepFault>
    ensures value { result ≡ answer_of found }
    ensures counts { faults.new ≡ faults_after result faults.old }
    ensures cause { HasFault faults.old faults.new result }
{
    match found {
        Ok(value) => Ok(value),
        Err(TableFault::Memory) => Err(KeepFault::Memory),
        Err(TableFault::Refused) => {
            *faults = faults.saturating_add(1);
            Err(KeepFault::Fault)
        }
    }
}

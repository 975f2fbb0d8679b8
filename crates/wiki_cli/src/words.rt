// Words that can't be read: no UTF-8, or no memory for them.
ghost use Rattle.std.specs.Prelude.{◌≡◌, ◌≢◌};
ghost use Rattle.std.specs.IoError.{error_kind};
ghost use Rattle.std.specs.declared.io.ErrorKind.TheVariants.{OutOfMemory};
ghost use Rattle.wiki_model.specs.Steps.{Rose};
ghost use Rattle.wiki_cli.specs.Ends.{Says};
ghost use Rattle.wiki_cli.specs.declared.status.Status.TheVariants.{Usage, Memory};

use crate::Status;
use crate::command::USAGE;
use crate::refuse::refuse;
use farm_base::Sink;
use std::io;

/// How the program ends if reading its words gave this error. Words that are no UTF-8 are no command. Out of memory is
/// not the user's fault: nothing is written.
pub fn refuse_words<O: Sink>(error: &io::Error, sink: &mut O) -> Status
    ensures memory { error_kind error.now ≡ OutOfMemory → result ≡ Memory }
    ensures usage { error_kind error.now ≢ OutOfMemory → result ≡ Usage }
    ensures says { Says (Rose (O.faults sink.old) (O.faults sink.new))
        (O.written sink.old) (O.written sink.new) result }
{
    if error.kind() == io::ErrorKind::OutOfMemory {
        return Status::Memory;
    }
    refuse(sink, USAGE, Status::Usage)
}

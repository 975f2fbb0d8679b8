// The options of a farm without a link: `clap` takes the words, and the reader by hand says what they are.
ghost use Rattle.std.specs.Prelude.{◌≡◌, ◌≢◌, [], IfErr, IfOk, option_map, false, true, if◌then◌else◌, Some, None};
ghost use Rattle.clap.specs.Values.{kind_of};
ghost use Rattle.clap.specs.Simple.{app_of};
ghost use Rattle.clap.specs.Faults.{fault_of};
ghost use Rattle.wiki_layout.specs.ClapOptions.{serve_app, ServedBy};
ghost use Rattle.wiki_layout.specs.AsModel.{options_of, texts_of};

use crate::options::{Options, read_options};
use clap::error::ErrorKind;
use clap::{Arg, ArgAction, ArgMatches, Command, Error};
use farm_base::Memory;
use std::alloc::{AllocError, Global};

/// The options that the words are, if they are any without a link; none otherwise. It fails only when out of memory,
/// and then nothing is said of the words.
pub fn served_options(alloc: Global, words: &[String]) -> Result<Option<Options<'_>>, Memory>
    ensures { IfOk result (λ found. ServedBy (texts_of words.now) (option_map options_of found)) }
{
    match matched(alloc, words) {
        Ok(_) => Ok(without_link(words)),
        Err(error) => if is_memory(&error) {
            Err(Memory)
        } else {
            Ok(None)
        },
    }
}

// What `clap` makes of the words. It refuses them for a fault of theirs, or for memory.
fn matched<'a>(alloc: Global, words: &'a [String]) -> Result<ArgMatches<'a>, Error>
    ensures { IfErr result (λ e. kind_of e ≢ ErrorKind.OutOfMemory → fault_of serve_app (texts_of words.now) ≢ []) }
{
    let command = serve_command(alloc)?;
    command.try_get_matches_from(words)
}

fn serve_command<'a>(alloc: Global) -> Result<Command<'a>, AllocError>
    ensures { IfOk result (λ c. app_of c ≡ serve_app) }
{
    let connections = Arg::new(alloc, "connections")
        .long("connections")
        .action(ArgAction::Set);
    let store = Arg::new(alloc, "store")
        .long("store")
        .action(ArgAction::Set);
    let plain = Command::new(alloc, "serve")
        .no_binary_name(true)
        .disable_help_flag(true)
        .disable_version_flag(true);
    let command = plain.arg(connections)?;
    let whole = command.arg(store)?;
    Ok(whole)
}

fn is_memory(error: &Error) -> bool
    ensures { result ≡ false → kind_of error.now ≢ ErrorKind.OutOfMemory }
{
    matches!(error.kind(), ErrorKind::OutOfMemory)
}

// As `read_options`, but a farm with a link is none.
fn without_link(words: &[String]) -> Option<Options<'_>>
    ensures { ServedBy (texts_of words.now) (option_map options_of result) }
{
    match read_options(words) {
        Some(options) => if options.link { None } else { Some(options) },
        None => None,
    }
}

// The command words.
ghost use Rattle.std.specs.Prelude.{◌≡◌, ◌≤◌, IfSome, option_map};
ghost use Rattle.drill_script.specs.Words.{number_of};
ghost use Rattle.wiki_cli.specs.Command.{ReadsCommand, NamesStore, word_texts, command_in, after_serve, store_after, serve_in, script_in, script_by, drill_in, stir_in};

use drill_script::number_of;
use wiki_layout::read_options;

/// What all other words are answered.
pub const USAGE: &[u8] =
    b"usage: wiki drill | wiki stir SEED STEPS | wiki serve [--connections N] [--store PATH]\n";

/// The greatest seed of a script that is made: 19 digits.
const SEED_MAX: u64 = 9_999_999_999_999_999_999;

/// The most steps of a script that is made.
const STEPS_MAX: u64 = 100_000;

/// What the program is to do.
#[derive(Clone, Copy, Debug, PartialEq, Eq)]
pub enum Command {
    /// To run a script.
    Script(ScriptCommand),
    /// To read a layout, and to serve at most this many connections of a wiki of it. Where its history lies is left to
    /// whoever makes the keeper.
    Serve { connections: u64 },
}

/// Which script is run, and what is written of it.
#[derive(Clone, Copy, Debug, PartialEq, Eq)]
pub enum ScriptCommand {
    /// To read a script, run it, and write its report.
    Drill,
    /// To make a script from a seed and a number of steps, run it, and write the counts of its answers.
    Stir { seed: u64, steps: u32 },
}

/// The command of these words, if they are one. It takes no memory.
#[tactic(auto, using(crate::proofs::CommandWords::read_so))]
pub fn read_command(words: &[String]) -> Option<Command>
    ensures { ReadsCommand result words.now }
{
    command_by(words)
}

fn command_by(words: &[String]) -> Option<Command>
    ensures { result ≡ command_in (word_texts words.now) }
{
    match after_serve(words) {
        Some(rest) => read_serve(rest),
        None => read_script(words).map(Command::Script),
    }
}

/// The words after the word `serve`, if that is the first.
fn after_serve(words: &[String]) -> Option<&[String]>
    ensures { option_map (λ rest. word_texts rest.now) result ≡ after_serve (word_texts words.now) }
{
    match words.split_first() {
        Some((word, rest)) if word.as_str() == "serve" => Some(rest),
        _ => None,
    }
}

fn read_serve(words: &[String]) -> Option<Command>
    ensures { result ≡ serve_in (word_texts words.now) }
{
    let options = read_options(words)?;
    if options.link {
        return None;
    }
    Some(Command::Serve {
        connections: options.connections,
    })
}

/// The file that keeps the history of the wiki that these words serve, for whoever makes the keeper; none if the
/// history ends with the process, or if the words are no command `serve`. It takes no memory.
#[tactic(auto, using(crate::proofs::CommandWords::no_serve, crate::proofs::CommandWords::store_said))]
pub fn store_of(words: &[String]) -> Option<&str>
    ensures { NamesStore (word_texts words.now) (option_map (λ path. path.now) result) }
{
    match after_serve(words) {
        Some(rest) => store_after(rest),
        None => None,
    }
}

fn store_after(words: &[String]) -> Option<&str>
    ensures { option_map (λ path. path.now) result ≡ store_after (word_texts words.now) }
{
    let options = read_options(words)?;
    if options.link {
        return None;
    }
    options.store
}

#[tactic(auto, using(crate::proofs::CommandWords::by_texts))]
fn read_script(words: &[String]) -> Option<ScriptCommand>
    ensures { result ≡ script_in (word_texts words.now) }
{
    script_by(words)
}

fn script_by(words: &[String]) -> Option<ScriptCommand>
    ensures { result ≡ script_by words.now }
{
    match words {
        [word] => read_drill(word.as_str()),
        [word, seed, steps] => read_stir(word.as_str(), seed.as_str(), steps.as_str()),
        _ => None,
    }
}

fn read_drill(word: &str) -> Option<ScriptCommand>
    ensures { result ≡ drill_in word.now }
{
    if word == "drill" {
        Some(ScriptCommand::Drill)
    } else {
        None
    }
}

fn read_stir(word: &str, seed: &str, steps: &str) -> Option<ScriptCommand>
    ensures { result ≡ stir_in word.now seed.now steps.now }
{
    if word != "stir" {
        return None;
    }
    let seed = number_in(SEED_MAX, seed)?;
    let steps = number_in(STEPS_MAX, steps)?;
    Some(ScriptCommand::Stir {
        seed,
        steps: steps as u32,
    })
}

/// A decimal number of at most `most`, without leading zeros.
fn number_in(most: u64, word: &str) -> Option<u64>
    ensures value { result ≡ number_of most word.now }
    ensures bound { IfSome result (λ n. n ≤ most) }
{
    number_of(most, word).ok()
}

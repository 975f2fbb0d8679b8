//! The program `wiki`: its words, its streams, its files, its network, its clock and its memory are the process's own.
//!
//! The idea is that nothing is decided here. The process's parts are put into one [`Outside`], the words are handed to
//! [`run`], and its status becomes the process's; so all that the program answers is said by the clauses of `run`. Only
//! two things are looked at before: which file the words name for the history, and whether they serve at all, since a
//! program that does not serve takes no port.
//!
//! What is left to others: all that it does and answers is `wiki_cli`'s, the streams are its adapters, the network and
//! the clock are `wiki_net`'s, and the keeper of a file is `sqlite_keeper`'s.
//!
//! ```text
//! wiki drill < script.txt                          writes the report of a script
//! wiki serve --store wiki.db < layout.toml         serves a wiki whose history is in a file
//! ```
#![tactic(auto)]

use host_keeper::HostKeeper;
use purge_relay::FarmWire;
use revision_keeper::MemKeeper;
use sqlite::Connection;
use sqlite_keeper::SqliteKeeper;
use std::alloc::Global;
use std::net::{Net, TcpListener, TcpStream};
use std::process::ExitCode;
use std::rt::Env;
use std::time::Clock;
use std::{env, io};
use wiki_cli::{Command, Outside, Reading, Writing, read_command, refuse_words, run, store_of};
use wiki_net::{SystemClock, SystemLots, TcpDoor};

/// Where a served wiki listens.
const ADDRESS: &str = "127.0.0.1:8080";

fn main(rt: HostRuntime) -> ExitCode {
    let alloc = rt.alloc();
    let words = words(&rt);
    let door = door(&rt, alloc, &words);
    if let Ok(address) = door.address() {
        let _ = eprintln!(rt; "wiki: http://{address}/wiki/Main_Page");
    }
    // A file that could not be opened is answered by each call of its keeper.
    let keeper = match store(&words) {
        Some(path) => HostKeeper::Stored(SqliteKeeper::new(alloc, Connection::open(&rt, path))),
        None => HostKeeper::Memory(MemKeeper::new(alloc)),
    };
    let mut outside = Outside {
        source: Reading::new(rt.reader()),
        sink: Writing::new(io::writer(&rt)),
        door,
        keeper: Some(keeper),
        clock: SystemClock::new(&rt),
        lots: SystemLots::new(&rt),
        wire: FarmWire::new(alloc),
    };
    let status = match words {
        Ok(words) => run(&rt, alloc, &words, &mut outside),
        Err(error) => refuse_words(&error, &mut outside.sink),
    };
    ExitCode::from(status.number())
}

fn words(rt: &(impl Env + AllocGlobal)) -> io::Result<Vec<String>> {
    let mut words = Vec::new(rt.alloc());
    for word in env::args(rt)?.skip(1) {
        words.push(word)?;
    }
    Ok(words)
}

// Only `serve` listens. A door that is shut, or that could not be opened, fails each time that it is asked.
fn door<'a, R>(rt: &'a R, alloc: Global, words: &io::Result<Vec<String>>) -> TcpDoor<'a, R>
where
    R: Net<Listener = TcpListener, Stream = TcpStream> + Clock,
{
    let serves = match words {
        Ok(words) => matches!(read_command(words), Some(Command::Serve { .. })),
        Err(_) => false,
    };
    if serves {
        if let Ok(door) = TcpDoor::bind(rt, alloc, ADDRESS) {
            return door;
        }
    }
    TcpDoor::shut(rt, alloc)
}

// The file for the history that the words name.
fn store(words: &io::Result<Vec<String>>) -> Option<&str> {
    match words {
        Ok(words) => store_of(words),
        Err(_) => None,
    }
}

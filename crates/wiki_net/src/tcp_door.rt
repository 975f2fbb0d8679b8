// A door that takes connections over TCP.
use crate::tcp_conn::TcpConn;
use farm_base::{Door, OutFault};
use std::alloc::Global;
use std::io::ErrorKind;
use std::net::{Net, SocketAddr, TcpListener, TcpStream};
use std::{io, time};

// How often the system is asked for a connection before that counts as a fault.
const TRIES: u32 = 16;

/// A door at a port. It exposes no connections, and always has more. If the system gives none that can be made ready,
/// not when it is asked a few times more either, that is a counted fault, and so is each call of a door that is shut.
#[derive(Drop)]
pub struct TcpDoor<'a, R> {
    rt: &'a R,
    alloc: Global,
    /// None: it is shut.
    listener: Option<TcpListener>,
    faults: u64,
}

impl<'a, R: Net<Listener = TcpListener, Stream = TcpStream> + time::Clock> TcpDoor<'a, R> {
    /// A door at this address, from which no connection was taken; no fault is counted.
    pub fn bind(rt: &'a R, alloc: Global, address: &str) -> io::Result<Self> {
        let listener = TcpListener::bind(rt, address)?;
        Ok(TcpDoor {
            rt,
            alloc,
            listener: Some(listener),
            faults: 0,
        })
    }

    /// A door at no port: it is asked in vain, each time. No fault is counted.
    pub fn shut(rt: &'a R, alloc: Global) -> Self {
        TcpDoor {
            rt,
            alloc,
            listener: None,
            faults: 0,
        }
    }

    /// Where it listens.
    pub fn address(&self) -> io::Result<SocketAddr> {
        match &self.listener {
            Some(listener) => listener.local_addr(),
            None => Err(io::Error::from(ErrorKind::NotConnected)),
        }
    }
}

impl<'a, R: Net<Listener = TcpListener, Stream = TcpStream> + time::Clock> Door for TcpDoor<'a, R> {
    ghost use Rattle.std.specs.Prelude.{None};

    type C = TcpConn<'a, R>;

    ghost offered = { λ _. None };

    ghost faults = { λ d. d.faults };

    ghost nones = { λ _. 0 };

    /// Waits for a client. It never says that there are no more.
    fn next(&mut self) -> Result<Option<TcpConn<'a, R>>, OutFault> {
        match next_conn(self.rt, self.alloc, self.listener.as_ref()) {
            Some(conn) => Ok(Some(conn)),
            None => {
                self.faults = self.faults.saturating_add(1);
                Err(OutFault::Failed)
            }
        }
    }

    /// Closes the connection.
    fn done(&mut self, conn: TcpConn<'a, R>) {
        let _ = conn;
    }
}

// The next client's connection. Clients that are gone before theirs is ready are passed over, a few of them.
fn next_conn<'a, R: time::Clock>(
    rt: &'a R,
    alloc: Global,
    listener: Option<&TcpListener>,
) -> Option<TcpConn<'a, R>> {
    let listener = listener?;
    for _ in 0..TRIES {
        if let Ok(conn) = accept(rt, alloc, listener) {
            return Some(conn);
        }
    }
    None
}

// A client's connection, which sends what is written at once.
fn accept<'a, R: time::Clock>(
    rt: &'a R,
    alloc: Global,
    listener: &TcpListener,
) -> io::Result<TcpConn<'a, R>> {
    let (stream, peer) = listener.accept()?;
    stream.set_nodelay(true)?;
    let peer = format!(in alloc; "{}", peer.ip())?;
    Ok(TcpConn::new(rt, stream, peer))
}

//! A port of this machine.

ghost use Rattle.std.specs.Prelude.{◌≡◌, ◌≤◌, [], false, OnOk, OnErr};
ghost use Rattle.outside.specs.Causes.{Rose, next_count};

use crate::link::TcpLink;
use outside::streams::{Acceptor, Failed};
use std::io;
use std::io::ErrorKind;
use std::net::{Ipv4Addr, Net, SocketAddr, TcpListener, TcpStream};

/// A port on 127.0.0.1, on which it listens from its first call of `listen` on. It counts the errors that it meets; before it listens, `next` is one. `next`
/// waits for no client.
#[derive(Drop)]
pub struct TcpPort<R: Net<Listener = TcpListener, Stream = TcpStream> + Drop> {
    runtime: R,
    listener: Option<TcpListener>,
    faults: u64,
}

impl<R: Net<Listener = TcpListener, Stream = TcpStream> + Drop> TcpPort<R> {
    /// Returns a port on which nothing listens yet, with no error met.
    pub fn new(rt: R) -> TcpPort<R>
        ensures { result.faults ≡ 0 }
    {
        TcpPort {
            runtime: rt,
            listener: None,
            faults: 0,
        }
    }

    /// Counts an error.
    fn failed<T: Drop>(&mut self) -> Result<T, Failed>
        ensures fault { OnErr result (self.new.faults ≡ next_count self.old.faults) }
        ensures cause { OnErr result (Rose self.old.faults self.new.faults) }
        ensures never { OnOk result ⊥ }
        ensures later { self.old.faults ≤ self.new.faults }
    {
        self.faults = self.faults.saturating_add(1);
        Err(Failed)
    }
}

/// Listens on an address, so that to accept waits for nobody.
fn bound<R: Net<Listener = TcpListener, Stream = TcpStream>>(
    rt: &R,
    address: SocketAddr,
) -> io::Result<TcpListener> {
    let listener = TcpListener::bind(rt, address)?;
    listener.set_nonblocking(true)?;
    Ok(listener)
}

/// Returns whether an error of accepting passes: no client was there, or one that left at once.
fn is_passing(kind: ErrorKind) -> bool {
    matches!(
        kind,
        ErrorKind::WouldBlock | ErrorKind::Interrupted | ErrorKind::ConnectionAborted
    )
}

impl<R: Net<Listener = TcpListener, Stream = TcpStream> + Drop> Acceptor for TcpPort<R> {
    type Link = TcpLink<TcpStream>;

    ghost tells = { false };

    ghost left = { λ _. [] };

    ghost fault_count = { λ a. a.faults };

    fn listen(&mut self, port: u16) -> Result<(), Failed>
        ensures cause { OnErr result (Rose self.old.faults self.new.faults) }
        ensures calm { OnOk result (self.new.faults ≡ self.old.faults) }
        ensures later { self.old.faults ≤ self.new.faults }
    {
        let address = SocketAddr::from((Ipv4Addr::LOCALHOST, port));
        match bound(&self.runtime, address) {
            Ok(listener) => {
                self.listener = Some(listener);
                Ok(())
            }
            Err(_) => self.failed(),
        }
    }

    fn next(&mut self) -> Result<Option<TcpLink<TcpStream>>, Failed>
        ensures cause { OnErr result (Rose self.old.faults self.new.faults) }
        ensures calm { OnOk result (self.new.faults ≡ self.old.faults) }
        ensures later { self.old.faults ≤ self.new.faults }
    {
        let Some(listener) = &self.listener else {
            return self.failed();
        };
        match listener.accept() {
            Ok((stream, _)) => {
                // Replies are written whole, so nothing is gained by waiting for more.
                let _ = stream.set_nodelay(true);
                Ok(Some(TcpLink::new(stream)))
            }
            Err(e) if is_passing(e.kind()) => Ok(None),
            Err(_) => self.failed(),
        }
    }
}

//! The wait for a connection to a port, which only a lost socket ends without one.

use super::parting::{LATE, Partings, SOON, comes};
use libc::net as c;
use libc::types::pollfd;
use std::alloc::Global;
use std::net::{SocketAddr, TcpListener, TcpStream};
use std::sync::Arc;

/// How long a wait pauses where the system is short of something, in milliseconds.
const PAUSE: i32 = 100;

// errors of a connection that the system took out of the queue, so that the next wait meets another
const EPROTO: i32 = 71;

const ENONET: i32 = 64;

const ENOPROTOOPT: i32 = 92;

const EOPNOTSUPP: i32 = 95;

const ENETDOWN: i32 = 100;

const ENETUNREACH: i32 = 101;

const EHOSTDOWN: i32 = 112;

const EHOSTUNREACH: i32 = 113;

/// What an error of a wait was of.
#[derive(Clone, Copy)]
enum Fault {
    /// Of one peer, whose connection is gone.
    Peer,
    /// Of a moment: there is no descriptor or no memory left, or a rule of this host's forbids the connection.
    Moment,
    /// Of the socket, which is lost.
    Socket,
}

/// What the error of this number was of. One that isn't known is taken for one of a moment, since a port that serves later is worth
/// more than a server that ends.
fn fault_of(number: Option<i32>) -> Fault {
    match number {
        Some(libc::ECONNABORTED | libc::ECONNRESET | libc::ETIMEDOUT | libc::EINTR) => Fault::Peer,
        Some(EPROTO | ENONET | ENOPROTOOPT | EOPNOTSUPP | ENETDOWN | ENETUNREACH) => Fault::Peer,
        Some(EHOSTDOWN | EHOSTUNREACH) => Fault::Peer,
        Some(libc::EBADF | libc::EINVAL | libc::ENOTSOCK) => Fault::Socket,
        _ => Fault::Moment,
    }
}

/// Pauses; without a handle for the system's clock, since neither a net nor a port has one.
fn pause() {
    let mut nothing: [pollfd; 0] = [];
    let _ = c::poll(&mut nothing, PAUSE);
}

/// Looks at those who are parting, and waits a while for a connection: whether one comes, or the system can't tell.
fn comes_next(listener: &TcpListener, partings: &Partings) -> bool {
    let wait = if partings.look() { SOON } else { LATE };
    comes(listener, wait)
}

/// The stream of the next connection to a port and the address of its peer, or the system's number of the error for which the socket is
/// lost. An error of one peer or of a moment is passed over, however often it comes: like one that finds no peer, such a wait ends when
/// a peer comes that the system can take, and no bound on its errors would tell more of when that is. In between it looks at those who
/// are parting, where there are such.
pub(super) fn accept_from(
    listener: &TcpListener,
    partings: &Option<Arc<Partings, Global>>,
) -> Result<(TcpStream, SocketAddr), Option<i32>> {
    for _ in 0..u64::MAX {
        if let Some(partings) = partings {
            if !comes_next(listener, partings) {
                continue;
            }
        }
        match listener.accept() {
            Ok(taken) => return Ok(taken),
            Err(error) => match fault_of(error.raw_os_error()) {
                Fault::Peer => {}
                Fault::Moment => pause(),
                Fault::Socket => return Err(error.raw_os_error()),
            },
        }
    }
    Err(None)
}

/// The stream of the next connection alone.
pub(super) fn accept_retrying(
    listener: &TcpListener,
    partings: &Option<Arc<Partings, Global>>,
) -> Result<TcpStream, Option<i32>> {
    let (stream, _) = accept_from(listener, partings)?;
    Ok(stream)
}

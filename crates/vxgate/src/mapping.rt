//! The port mapper of the host, in the same process: a thread that answers over TCP, and one that answers over UDP.
use std::alloc::{AllocError, Global};
use std::io::{Eprint, Stderr};
use std::net::{Net as Sockets, TcpListener, TcpStream};
use std::sync::Wait;
use std::thread::{self, Threads};
use vx_host::ErrorLog;
use vx_io::TcpDoor;
use vx_portmap::{MapHost, map_run};
use vx_udp::UdpBox;

/// The port of a port mapper (RFC 1833, section 3.1).
const MAPPER: &str = "111";

/// How many streams or packets are answered before the port is opened anew.
const ROUND: &str = "1000000";

/// The ports that it tells.
#[derive(Clone, Copy)]
pub struct Mapped {
    pub core: u16,
    pub abort: u16,
}

/// The words that a port mapper of this kind, `stream` or `packets`, is asked by.
fn words_of(alloc: Global, kind: &str, mapped: Mapped) -> Result<Vec<String>, AllocError> {
    let mut words = Vec::new(alloc);
    words.push(String::from_str(alloc, kind)?)?;
    words.push(String::from_str(alloc, MAPPER)?)?;
    words.push(mapped.core.to_string(alloc)?)?;
    words.push(mapped.abort.to_string(alloc)?)?;
    words.push(String::from_str(alloc, ROUND)?)?;
    Ok(words)
}

/// Answers as these words ask, for as long as the port can be had, and tells on standard error where it can't.
fn map_on<R>(rt: &R, alloc: Global, stderr: Stderr, words: &[String])
where
    R: Wait + Eprint + Sockets<Listener = TcpListener, Stream = TcpStream>,
{
    for _ in rt.forever() {
        let mut net = MapHost::new(TcpDoor::new(rt), UdpBox::new(rt));
        let mut silence = ErrorLog::new(stderr, false);
        if map_run(alloc, words, &mut net, &mut silence) != 0 {
            let _ = eprintln!(rt;
                "vxgate: no port mapper at port {MAPPER}: the port can't be had, or is lost"
            );
            return;
        }
    }
}

/// Starts both, where ports are to be told.
pub fn map_ports<R>(
    rt: R,
    alloc: Global,
    stderr: Stderr,
    mapped: Option<Mapped>,
) -> Result<(), AllocError>
where
    R: Threads
        + Wait
        + Eprint
        + Sockets<Listener = TcpListener, Stream = TcpStream>
        + Copy
        + Send
        + 'static,
{
    let Some(mapped) = mapped else {
        return Ok(());
    };
    for kind in ["stream", "packets"] {
        let words = words_of(alloc, kind, mapped)?;
        let _ = thread::spawn(&rt, move || map_on(&rt, alloc, stderr, words.as_slice()));
    }
    Ok(())
}

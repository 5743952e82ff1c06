//! Connections over loopback, each sent whole before the first is served.
use crate::listener::{CUT, READS, UPLOADS};
use crate::report::tell;
use crate::words::words_of;
use gcs_io::{MemSink, QuietGate};
use gcs_workers::{TcpPairs, run_shared};
use std::alloc::Global;
use std::io;
use std::io::Write;
use std::net::{Net, Shutdown, SocketAddr, TcpListener, TcpStream};
use std::rt::Clock;
use std::sync::Wait;
use std::thread::Threads;
use std::time::Duration;

/// For how many seconds a connection may stand still.
pub const IDLE_SECONDS: u64 = 5;

/// Serves three connections by one worker, the second of which is cut, and looks at what their clients get.
pub fn try_loopback<R>(rt: &R) -> io::Result<bool>
where
    R: Net<Listener = TcpListener, Stream = TcpStream>
        + Threads
        + Wait
        + Sync
        + Clock
        + Print
        + AllocGlobal,
{
    let alloc = rt.alloc();
    let listener = TcpListener::bind(rt, "127.0.0.1:0")?;
    let address = listener.local_addr()?;
    let first = send(rt, address, UPLOADS)?;
    let second = send(rt, address, CUT)?;
    let third = send(rt, address, READS)?;
    let pairs = TcpPairs::new(listener, rt, Duration::from_secs(IDLE_SECONDS), Some(3));
    let mut output = MemSink::new(alloc, 100, Vec::new(alloc))?;
    let mut errors = MemSink::new(alloc, 100, Vec::new(alloc))?;
    let words = words_of(alloc, "serve 127.0.0.1:0 1 3")?;
    let (status, pairs) = run_shared(
        rt,
        alloc,
        &words,
        pairs,
        &QuietGate,
        &mut output,
        &mut errors,
    );
    let status = format!(in alloc; "{status}")?;
    let mut all_ok = tell(
        rt,
        "the run ends behind its last connection",
        status.as_str(),
        "0",
    )?;
    let replies = receive(alloc, first)?;
    let made = format!(in alloc; "{} made", replies.matches("HTTP/1.1 200 OK\r\n").count())?;
    all_ok &= tell(
        rt,
        "the bucket and the object are made",
        made.as_str(),
        "2 made",
    )?;
    let nothing = receive(alloc, second)?;
    all_ok &= tell(
        rt,
        "a connection that is cut gets no reply",
        nothing.as_str(),
        "",
    )?;
    let reply = receive(alloc, third)?;
    let content = reply.split("\r\n\r\n").last().unwrap_or("no reply");
    all_ok &= tell(
        rt,
        "the object is read by the next client",
        content,
        "123456789",
    )?;
    Ok(all_ok)
}

/// A connection over which a text was sent, and no more comes.
pub fn send<R>(rt: &R, address: SocketAddr, text: &str) -> io::Result<TcpStream>
where
    R: Net<Listener = TcpListener, Stream = TcpStream>,
{
    let mut stream = TcpStream::connect(rt, address)?;
    stream.write_all(text.as_bytes())?;
    stream.shutdown(Shutdown::Write)?;
    Ok(stream)
}

/// All that comes over the connection.
pub fn receive(alloc: Global, stream: TcpStream) -> io::Result<String> {
    io::read_to_string(alloc, stream)
}

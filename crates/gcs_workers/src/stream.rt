//! The two halves of a TCP connection: the edge, whose reads and writes are the system's.

use std::io;
use std::io::{Read, Write};
use std::net::{Shutdown, TcpStream};
use std::rt::Clock as SystemTimes;
use std::time::{Duration, Instant};

/// For how many seconds a connection that is closed still reads, and how long it waits at most for a byte.
const LINGER_SECONDS: u64 = 1;

/// The reading half of a connection. Once a read has failed, or waited too long, nothing more goes over the connection.
#[derive(Drop)]
pub struct TcpReader {
    stream: TcpStream,
}

impl TcpReader {
    pub fn new(stream: TcpStream) -> TcpReader {
        TcpReader { stream }
    }
}

impl Read for TcpReader {
    fn read(&mut self, buf: &mut [u8]) -> io::Result<usize> {
        let result = self.stream.read(buf);
        if result.is_err() {
            // The connection is of no more use, whatever this answers.
            let _ = self.stream.shutdown(Shutdown::Both);
        }
        result
    }
}

/// The writing half of a connection. Once a write has failed, or waited too long, nothing more goes over the connection.
///
/// Where it is dropped it says that no further bytes come, and reads on for a short while: a socket that is closed with
/// bytes unread resets the connection, which may cost the client the last reply (RFC 9112, 9.6).
pub struct TcpWriter<R: SystemTimes + Copy + Drop> {
    stream: TcpStream,
    rt: R,
}

impl<R: SystemTimes + Copy + Drop> TcpWriter<R> {
    pub fn new(stream: TcpStream, rt: R) -> TcpWriter<R> {
        TcpWriter { stream, rt }
    }
}

impl<R: SystemTimes + Copy + Drop> Write for TcpWriter<R> {
    fn write(&mut self, buf: &[u8]) -> io::Result<usize> {
        let result = self.stream.write(buf);
        if result.is_err() {
            // As after a read that failed.
            let _ = self.stream.shutdown(Shutdown::Both);
        }
        result
    }

    fn flush(&mut self) -> io::Result<()> {
        self.stream.flush()
    }
}

impl<R: SystemTimes + Copy + Drop> Drop for TcpWriter<R> {
    fn drop(self) {
        let TcpWriter { stream, rt } = self;
        // The connection is closed behind it, whatever this answers.
        let _ = linger(stream, &rt);
    }
}

// Reads what the client still sends, until it ends, a read fails or waits too long, or the time is over.
fn linger<R: SystemTimes>(mut stream: TcpStream, rt: &R) -> io::Result<()> {
    let most = Duration::from_secs(LINGER_SECONDS);
    let start = Instant::now(rt)?;
    stream.shutdown(Shutdown::Write)?;
    stream.set_read_timeout(Some(most))?;
    let mut bytes = [0u8; 4096];
    for _ in 0..u64::MAX {
        if stream.read(&mut bytes)? == 0 || start.elapsed(rt)? >= most {
            break;
        }
    }
    Ok(())
}

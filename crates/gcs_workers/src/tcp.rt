//! Connections over TCP: the edge, whose sockets are the system's.
ghost use Rattle.std.specs.Prelude.{◌≡◌, ◌<◌, None};
ghost use Rattle.std.specs.Duration.{as_nanos};

use crate::link::{Link, Pair};
use crate::listener::Listen;
use crate::stream::{TcpReader, TcpWriter};
use gcs_io::{Failed, StdSink, StdSource, SystemClock};
use std::net::{TcpListener, TcpStream};
use std::rt::Clock as SystemTimes;
use std::time::Duration;
use std::{io, thread};

/// How often a connection, or the second handle of one, is tried for before the listener fails.
const TRIES: u32 = 50;

/// How many milliseconds it waits after each try that failed.
const PAUSE_MILLIS: u64 = 100;

/// Hands out the connections of a listening socket, in the order in which the system gives them, and tells none of them.
/// Where a number of connections is given, none comes after so many.
///
/// A call of the system that fails, as it does where there are no descriptors, is tried again after a pause, up to a
/// number of times.
#[derive(Drop)]
pub struct TcpPairs<R: SystemTimes + Copy + Drop> {
    listener: TcpListener,
    rt: R,
    idle: Duration,
    left: Option<u32>,
    faults: u64,
    ends: u64,
}

impl<R: SystemTimes + Copy + Drop + Send> TcpPairs<R> {
    /// `idle`: a read that gets no byte for so long, or a write that gets none away, fails.
    pub fn new(
        listener: TcpListener,
        rt: R,
        idle: Duration,
        connections: Option<u32>,
    ) -> TcpPairs<R>
        requires idle { 0 < as_nanos idle }
        ensures pending { ⟦<TcpPairs<R> as Listen>⟧.pending result ≡ None }
        ensures faults { ⟦<TcpPairs<R> as Listen>⟧.fault_count result ≡ 0 }
        ensures ends { ⟦<TcpPairs<R> as Listen>⟧.end_count result ≡ 0 }
    {
        TcpPairs {
            listener,
            rt,
            idle,
            left: connections,
            faults: 0,
            ends: 0,
        }
    }
}

impl<R: SystemTimes + Copy + Drop> TcpPairs<R> {
    // A connection's stream, and a second handle of it.
    fn halves(&self) -> Result<(TcpStream, TcpStream), Failed> {
        let stream = self.accept()?;
        let other = self.second_handle(&stream)?;
        Ok((stream, other))
    }

    fn accept(&self) -> Result<TcpStream, Failed> {
        for _ in 0..TRIES {
            match self.ready_stream() {
                Ok(stream) => return Ok(stream),
                Err(_) => self.pause(),
            }
        }
        Err(Failed)
    }

    // The next stream of the system, which fails rather than wait too long, and sends small replies at once.
    fn ready_stream(&self) -> io::Result<TcpStream> {
        let (stream, _) = self.listener.accept()?;
        stream.set_read_timeout(Some(self.idle))?;
        stream.set_write_timeout(Some(self.idle))?;
        stream.set_nodelay(true)?;
        Ok(stream)
    }

    fn second_handle(&self, stream: &TcpStream) -> Result<TcpStream, Failed> {
        for _ in 0..TRIES {
            match stream.try_clone() {
                Ok(other) => return Ok(other),
                Err(_) => self.pause(),
            }
        }
        Err(Failed)
    }

    fn pause(&self) {
        thread::sleep(&self.rt, Duration::from_millis(PAUSE_MILLIS));
    }
}

impl<R: SystemTimes + Copy + Drop + Send> Listen for TcpPairs<R> {
    type Reader = StdSource<TcpReader>;

    type Writer = StdSink<TcpWriter<R>>;

    type Time = SystemClock<R>;

    ghost pending = { λ s. None };

    ghost fault_count = { λ s. s.faults };

    ghost end_count = { λ s. s.ends };

    fn next(&mut self) -> Result<Option<Link<Self::Reader, Self::Writer, Self::Time>>, Failed> {
        match self.left {
            Some(0) => {
                self.ends = self.ends.saturating_add(1);
                return Ok(None);
            }
            Some(left) => self.left = Some(left - 1),
            None => {}
        }
        match self.halves() {
            Ok((reader, writer)) => Ok(Some(Link::new(Pair {
                source: StdSource::new(TcpReader::new(reader)),
                sink: StdSink::new(TcpWriter::new(writer, self.rt)),
                clock: SystemClock::new(self.rt),
            }))),
            Err(Failed) => {
                self.faults = self.faults.saturating_add(1);
                Err(Failed)
            }
        }
    }

    fn faults(&self) -> u64 {
        self.faults
    }

    fn ends(&self) -> u64 {
        self.ends
    }
}

//! The program: a Cloud Storage server over TCP, or over standard input and output.
#![tactic(auto)]

use gcs_io::{QuietGate, Sink, StdSink, StdSource, SystemClock};
use gcs_meaning::Text;
use gcs_workers::{Status, TcpPairs, Word, WordsFault, Work, read_words, run_alone, run_shared};
use std::alloc::{AllocError, Global};
use std::env;
use std::io::ErrorKind;
use std::net::{Net, TcpListener, TcpStream};
use std::process::ExitCode;
use std::rt::Clock;
use std::sync::Wait;
use std::thread::Threads;
use std::time::Duration;

/// For how many seconds a connection may stand still before it is ended.
const IDLE_SECONDS: u64 = 5;

fn main(rt: HostRuntime) -> ExitCode {
    let alloc = rt.alloc();
    let Ok(words) = words(&rt, alloc) else {
        return ExitCode::from(Status::NoMemory.number());
    };
    let status = match read_words(alloc, &words) {
        Ok(
            Work::Serve {
                address,
                workers: _workers,
                connections,
            },
        ) => {
            let mut output = StdSink::new(rt.stdout());
            let mut errors = StdSink::new(rt.stderr());
            let address = address.as_str();
            serve(
                &rt,
                alloc,
                &words,
                address,
                connections,
                &mut output,
                &mut errors,
            )
        }
        Ok(Work::Stdio { bucket: _bucket }) => alone(&rt, alloc, &words),
        Err(WordsFault::Bad) => alone(&rt, alloc, &words),
        Err(WordsFault::NoMemory) => Status::NoMemory.number(),
    };
    ExitCode::from(status)
}

// The words behind the program's name. Words that aren't text are as good as none, since both are refused.
fn words(rt: &HostRuntime, alloc: Global) -> Result<Vec<Word>, AllocError> {
    let mut words = Vec::new(alloc);
    match env::args(rt) {
        Ok(arguments) => {
            for word in arguments.skip(1) {
                words.push(Text::from_str(alloc, word.as_str())?)?;
            }
        }
        Err(e) if e.kind() == ErrorKind::OutOfMemory => return Err(AllocError),
        Err(_) => {}
    }
    Ok(words)
}

// Binds the address, says on the error output which it is, and serves its connections.
fn serve<R, O: Sink, E: Sink>(
    rt: &R,
    alloc: Global,
    words: &[Word],
    address: &str,
    connections: Option<u32>,
    output: &mut O,
    errors: &mut E,
) -> u8
where
    R: Net<Listener = TcpListener, Stream = TcpStream> + Threads + Wait + Sync + Clock + Eprint,
{
    let Ok(listener) = TcpListener::bind(rt, address) else {
        return Status::ListenFault.number();
    };
    let Ok(bound) = listener.local_addr() else {
        return Status::ListenFault.number();
    };
    if eprintln!(rt; "gcs_server: listening on {bound}").is_err() {
        return Status::WriteFault.number();
    }
    let idle = Duration::from_secs(IDLE_SECONDS);
    let pairs = TcpPairs::new(listener, rt, idle, connections);
    let (status, pairs) = run_shared(rt, alloc, words, pairs, &QuietGate, output, errors);
    drop(pairs);
    status
}

// Serves standard input and output, or refuses the words.
fn alone(rt: &HostRuntime, alloc: Global, words: &[Word]) -> u8 {
    let mut input = StdSource::new(rt.stdin());
    let mut output = StdSink::new(rt.stdout());
    let mut errors = StdSink::new(rt.stderr());
    let mut clock = SystemClock::new(rt);
    run_alone(
        alloc,
        words,
        &mut input,
        &mut output,
        &mut errors,
        &mut clock,
    )
}

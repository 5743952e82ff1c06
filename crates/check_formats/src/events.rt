//! What a framer tells of a text, written as a text.
ghost use Rattle.std.specs.Prelude.{◌<◌};
ghost use Rattle.gcs_http_in.specs.Usual.{IsAllowed};

use gcs_http_in::{FrameFault, Framer, Limits, Taken};
use std::alloc::{AllocError, Global};

/// What is told of the text in pieces of that size: `<keep ` or `<close ` for a head, the content, `>` for an end, the name
/// of a fault, and `.` where only line ends came since the last end.
pub fn events(
    alloc: Global,
    limits: &Limits,
    text: &[u8],
    size: usize,
) -> Result<Vec<u8>, AllocError>
    requires limits { IsAllowed limits.now }
    requires size { 0 < size }
{
    let mut framer = Framer::new(alloc, limits)?;
    let mut told = Vec::new(alloc);
    for piece in text.chunks(size) {
        tell(&mut framer, &mut told, piece)?;
    }
    if framer.at_start() {
        told.push(b'.')?;
    }
    Ok(told)
}

/// The same of a text whose second half is read by a copy of the framer.
pub fn events_by_copy(alloc: Global, limits: &Limits, text: &[u8]) -> Result<Vec<u8>, AllocError>
    requires { IsAllowed limits.now }
{
    let (front, back) = text.split_at(text.len() / 2);
    let mut framer = Framer::new(alloc, limits)?;
    let mut told = Vec::new(alloc);
    tell(&mut framer, &mut told, front)?;
    let mut copied = framer.copy()?;
    tell(&mut copied, &mut told, back)?;
    if copied.at_start() {
        told.push(b'.')?;
    }
    Ok(told)
}

fn tell(framer: &mut Framer, told: &mut Vec<u8>, piece: &[u8]) -> Result<(), AllocError> {
    let mut rest = piece;
    for _ in 0..100_000 {
        let event = framer.feed(rest);
        if let Taken::More { taken: _ } = event {
            return Ok(());
        }
        let keeps = framer.keeps();
        told.extend_from_slice(told_of(event, rest, keeps))?;
        rest = &rest[taken_by(event).min(rest.len())..];
    }
    Ok(())
}

fn taken_by(event: Taken) -> usize {
    match event {
        Taken::More { taken } => taken,
        Taken::Head { taken } => taken,
        Taken::Body { taken, .. } => taken,
        Taken::End { taken } => taken,
        Taken::Fault { taken, .. } => taken,
    }
}

fn told_of(event: Taken, piece: &[u8], keeps: bool) -> &[u8] {
    match event {
        Taken::More { .. } => b"",
        Taken::Head { .. } if keeps => b"<keep ",
        Taken::Head { .. } => b"<close ",
        Taken::Body { from, to, .. } => piece.get(from..to).unwrap_or(b"no range"),
        Taken::End { .. } => b">",
        Taken::Fault { fault, .. } => name_of(fault).as_bytes(),
    }
}

fn name_of(fault: FrameFault) -> &'static str {
    match fault {
        FrameFault::HeadTooLong => "HeadTooLong",
        FrameFault::TooManyFields => "TooManyFields",
        FrameFault::BadHead => "BadHead",
        FrameFault::BadCoding => "BadCoding",
        FrameFault::BothLengths => "BothLengths",
        FrameFault::BadLength => "BadLength",
        FrameFault::BodyTooLong => "BodyTooLong",
        FrameFault::BadChunk => "BadChunk",
    }
}

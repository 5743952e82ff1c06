//! How the connections of a row are served.
use std::fmt;

/// How the connections of a row are served: where their input is cut, and which call fails.
#[derive(Clone, Copy, Debug)]
pub enum Course {
    /// Each read gives as much as there is room for.
    Whole,
    /// A read gives at most so many bytes.
    Pieces(usize),
    /// The first read gives so many bytes, the second the others.
    CutAt(usize),
    /// The input ends behind so many bytes.
    EndingAt(usize),
    /// The read of that number fails, from 1. Each other gives at most 7 bytes.
    FailingRead(u32),
    /// The write of that number fails, from 1.
    FailingWrite(u32),
    /// There is room for so many bytes of the replies.
    Room(usize),
    /// By the words of the program, in one piece.
    Program,
}

/// How many bytes a read gives at most where one of them fails.
pub const SHORT: usize = 7;

impl Course {
    /// How many bytes the first read gives at most, and each other.
    pub fn cuts(self) -> (usize, usize) {
        match self {
            Course::Pieces(size) => (size, size),
            Course::CutAt(place) => (place, usize::MAX),
            Course::FailingRead(_) => (SHORT, SHORT),
            _ => (usize::MAX, usize::MAX),
        }
    }

    pub fn failing_read(self) -> Option<u32> {
        match self {
            Course::FailingRead(number) => Some(number),
            _ => None,
        }
    }

    /// For how many bytes of replies there is room.
    pub fn room(self) -> usize {
        match self {
            Course::Room(room) => room,
            _ => usize::MAX,
        }
    }

    pub fn failing_write(self) -> Option<u32> {
        match self {
            Course::FailingWrite(number) => Some(number),
            _ => None,
        }
    }
}

impl fmt::Display for Course {
    fn fmt<W: fmt::Write>(&self, f: &mut fmt::Formatter<W>) -> fmt::Result {
        match *self {
            Course::Whole => write!(f, "in one piece"),
            Course::Pieces(size) => write!(f, "in pieces of {size}"),
            Course::CutAt(place) => write!(f, "cut at {place}"),
            Course::EndingAt(place) => write!(f, "ending at {place}"),
            Course::FailingRead(number) => write!(f, "failing at read {number}"),
            Course::FailingWrite(number) => write!(f, "failing at write {number}"),
            Course::Room(room) => write!(f, "with room for {room}"),
            Course::Program => write!(f, "by the program"),
        }
    }
}

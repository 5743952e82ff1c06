//! Parts whose lines are as long as they may be, and longer.
use std::alloc::{AllocError, Global};

/// A body whose last part has lines of this many bytes, the empty line among them.
pub struct HeadRow {
    pub name: &'static str,
    /// The bytes before these lines.
    pub front: &'static str,
    pub length: usize,
    /// What is told of it, as a line of a `Telling`.
    pub told: &'static str,
}

pub static HEADS: [HeadRow; 4] = [
    HeadRow {
        name: "the_longest_lines",
        front: "--b\r\n",
        length: 32_768,
        told: "<|one!.",
    },
    HeadRow {
        name: "lines_of_a_byte_too_many",
        front: "--b\r\n",
        length: 32_769,
        told: "?",
    },
    HeadRow {
        name: "lines_of_twice_the_bytes",
        front: "--b\r\n",
        length: 65_536,
        told: "?",
    },
    HeadRow {
        name: "long_lines_behind_a_part",
        front: "--b\r\n\r\none\r\n--b\r\n",
        length: 32_769,
        told: "<|one>?",
    },
];

impl HeadRow {
    pub fn body(&self, alloc: Global) -> Result<Vec<u8>, AllocError> {
        let mut body = Vec::from_slice(alloc, self.front.as_bytes())?;
        body.extend_from_slice(b"A:")?;
        for _ in 0..self.length.saturating_sub(6) {
            body.push(b'a')?;
        }
        body.extend_from_slice(b"\r\n\r\none\r\n--b--")?;
        Ok(body)
    }
}

//! What the lines of a row show.
use crate::bodies::body_text;
use crate::resources::resource_text;
use check_rows::Show;
use std::alloc::{AllocError, Global};

/// Shows lines, each by itself.
#[derive(Drop)]
pub struct Shown {
    alloc: Global,
}

impl Shown {
    pub fn new(alloc: Global) -> Shown {
        Shown { alloc }
    }
}

impl Show for Shown {
    fn show(&mut self, _line: usize, asked: &str) -> Result<String, AllocError> {
        let (call, rest) = asked.split_once(" ").unwrap_or((asked, ""));
        match call {
            "show" => resource_text(self.alloc, rest),
            _ => body_text(self.alloc, call, rest),
        }
    }
}

//! The rows of a file, and whether their lines show what is wanted.
use std::alloc::{AllocError, Global};
use std::fmt::{self, Display, Formatter, Write};

/// A row: its name, and its lines `ASKED => WANTED` in order.
#[derive(Drop)]
pub struct Row<'a> {
    pub name: &'a str,
    pub lines: Vec<&'a str>,
}

/// A line, counted from 1, and what it shows in place of what is wanted.
#[derive(Drop)]
pub struct Failure {
    pub line: usize,
    pub shown: String,
}

impl Display for Failure {
    fn fmt<W: Write>(&self, f: &mut Formatter<W>) -> fmt::Result {
        write!(f, "line {}: {}", self.line, self.shown.as_str())
    }
}

/// What shows the lines of a row, one after the other.
pub trait Show {
    /// What the line of that number in its row, from 1, shows. `Err`: no memory.
    fn show(&mut self, line: usize, asked: &str) -> Result<String, AllocError>;
}

/// Reads the rows of a file's text. `== NAME` begins a row; an empty line and a line `# TEXT` are for readers alone. A line
/// before the first row is a row of that name.
pub fn read_rows<'a>(alloc: Global, text: &'a str) -> Result<Vec<Row<'a>>, AllocError> {
    let mut rows: Vec<Row<'a>> = Vec::new(alloc);
    for line in text.lines() {
        if line.is_empty() || line.starts_with("#") {
            continue;
        }
        let name = line.strip_prefix("== ");
        match rows.last_mut() {
            Some(row) if name.is_none() => row.lines.push(line)?,
            _ => rows.push(Row {
                name: name.unwrap_or(line),
                lines: Vec::new(alloc),
            })?,
        }
    }
    Ok(rows)
}

/// The first line of the row that shows another thing than is wanted. `Err`: no memory.
pub fn first_failure<S: Show>(row: &Row<'_>, show: &mut S) -> Result<Option<Failure>, AllocError> {
    let mut line: usize = 0;
    for text in &row.lines {
        line = line.saturating_add(1);
        let (asked, wanted) = text.split_once(" => ").unwrap_or((*text, ""));
        let shown = show.show(line, asked)?;
        if shown.as_str() != wanted {
            return Ok(Some(Failure { line, shown }));
        }
    }
    Ok(None)
}

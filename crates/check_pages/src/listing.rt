//! What is asked for by the listings that are compared.
ghost use Rattle.std.specs.Prelude.{◌≡◌, IfOk};

use crate::plain::PlainUnit;
use gcs_meaning::{PageQuery, Text, Unit, View};
use std::alloc::{AllocError, Global};
use std::fmt;

/// A listing, of which all pages are asked for. An empty delimiter is none.
#[derive(Clone, Copy, Debug)]
pub struct Listing<'a> {
    pub view: View,
    pub delimiter: &'a str,
    pub trailing: bool,
    pub span: Span<'a>,
}

/// Which names are listed: those that begin with the prefix, from `start` on and below `end`.
#[derive(Clone, Copy, Debug)]
pub struct Span<'a> {
    pub prefix: &'a str,
    pub start: Option<&'a str>,
    pub end: Option<&'a str>,
}

impl Listing<'_> {
    /// The query for at most `most` units after one. `Err`: no memory.
    pub fn query(
        &self,
        alloc: Global,
        most: u32,
        after: Option<PlainUnit<'_>>,
    ) -> Result<PageQuery, AllocError>
        ensures { IfOk result (λ query. query.view ≡ self.now.view) }
    {
        Ok(PageQuery {
            view: self.view,
            prefix: Text::from_str(alloc, self.span.prefix)?,
            delimiter: Text::from_str(alloc, self.delimiter)?,
            start: text(alloc, self.span.start)?,
            end: text(alloc, self.span.end)?,
            trailing: self.trailing,
            most,
            after: unit(alloc, after)?,
        })
    }
}

fn text(alloc: Global, text: Option<&str>) -> Result<Option<Text>, AllocError> {
    match text {
        Some(text) => Ok(Some(Text::from_str(alloc, text)?)),
        None => Ok(None),
    }
}

fn unit(alloc: Global, unit: Option<PlainUnit<'_>>) -> Result<Option<Unit>, AllocError> {
    match unit {
        Some(PlainUnit { text, number, .. }) => Ok(Some(Unit {
            text: Text::from_str(alloc, text)?,
            number,
        })),
        None => Ok(None),
    }
}

impl fmt::Display for Listing<'_> {
    fn fmt<W: fmt::Write>(&self, f: &mut fmt::Formatter<W>) -> fmt::Result {
        let view = match self.view {
            View::Live => "live",
            View::Versions => "versions",
            View::Soft => "soft-deleted",
        };
        let span = self.span;
        write!(f, "{view}{span}")?;
        if !self.delimiter.is_empty() {
            let delimiter = self.delimiter;
            write!(f, " folded at {delimiter}")?;
        }
        if self.trailing {
            write!(f, " with trailing delimiters")?;
        }
        Ok(())
    }
}

impl fmt::Display for Span<'_> {
    fn fmt<W: fmt::Write>(&self, f: &mut fmt::Formatter<W>) -> fmt::Result {
        if !self.prefix.is_empty() {
            let prefix = self.prefix;
            write!(f, " {prefix}*")?;
        }
        if let Some(start) = self.start {
            write!(f, " from {start}")?;
        }
        if let Some(end) = self.end {
            write!(f, " below {end}")?;
        }
        Ok(())
    }
}

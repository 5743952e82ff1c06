//! Listings of objects in pages, as plain data. Source: Cloud Storage JSON API, "Objects: list".
use crate::copying::Copied;
use crate::list::List;
use crate::settings::Settings;
use crate::text::Text;
use crate::version::Row;
use std::alloc::AllocError;

/// Which versions a listing shows.
#[derive(Clone, Copy, Debug, PartialEq, Eq)]
pub enum View {
    Live,
    /// The live and the noncurrent ones.
    Versions,
    Soft,
}

/// A unit of a listing: an item or, with the number 0, a common prefix. The number of an item is its generation, or 1
/// where the live versions are listed.
#[derive(Drop)]
pub struct Unit {
    pub text: Text,
    pub number: u64,
}

impl Copied for Unit {
    fn copy(&self) -> Result<Unit, AllocError> {
        Ok(Unit {
            text: self.text.copy()?,
            number: self.number,
        })
    }
}

/// What a listing asks for: at most `most` units after `after`. An empty delimiter is none.
pub struct PageQuery {
    pub view: View,
    pub prefix: Text,
    pub delimiter: Text,
    pub start: Option<Text>,
    pub end: Option<Text>,
    pub trailing: bool,
    pub most: u32,
    pub after: Option<Unit>,
}

impl Drop for PageQuery {
    fn drop(self) {
        let PageQuery {
            view: _,
            prefix,
            delimiter,
            start,
            end,
            trailing: _,
            most: _,
            after,
        } = self;
        drop(prefix);
        drop(delimiter);
        drop(start);
        drop(end);
        drop(after);
    }
}

/// One page. `next` is its last unit where more are left.
pub struct Page {
    pub items: List<Row>,
    pub prefixes: List<Text>,
    pub next: Option<Unit>,
    pub settings: Settings,
}

impl Drop for Page {
    fn drop(self) {
        let Page {
            items,
            prefixes,
            next,
            settings,
        } = self;
        drop(items);
        drop(prefixes);
        drop(next);
        drop(settings);
    }
}

impl Copied for Page {
    fn copy(&self) -> Result<Page, AllocError> {
        Ok(Page {
            items: self.items.copy()?,
            prefixes: self.prefixes.copy()?,
            next: self.next.copy()?,
            settings: self.settings.copy()?,
        })
    }
}

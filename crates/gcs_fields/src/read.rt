//! The text of a mask, read byte by byte.
ghost use Rattle.std.specs.Prelude.{◌≡◌, ◌≢◌, ℕ, ◌+◌, ◌<◌, ◌≤◌, ◌++◌, List, [], ◌∷◌, length, IfOk, IfErr, OnOk, Ok, Err, IsTrue, ◌↔◌, true};
ghost use Rattle.gcs_fields.specs.declared.scan.Place.TheVariants.{Start, Closed};
ghost use Rattle.gcs_fields.specs.declared.scan.Sign.TheVariants as sign;
ghost use Rattle.gcs_fields.specs.Tree.{is_name_byte, IsMask, print};
ghost use Rattle.gcs_fields.specs.Views.{mask_of};
ghost use Rattle.gcs_fields.specs.Fault.{IsFault};
ghost use Rattle.gcs_fields.specs.Scan.{needed_of, IsWhole, IsNamed, IsItem, MayGoOn, stepped};
ghost use Rattle.gcs_fields.specs.Reading.{Stands, Holds, Next, NextBy, name_at, stop_of, names_of};

use crate::mask::{Item, Mask, Name};
use crate::scan::{Place, Sign, sign_of};
use std::alloc::{AllocError, Global};
use std::mem::replace;

/// The most bytes of a mask's text.
const MOST_BYTES: usize = 4096;

/// The most levels of a mask: each name and each bracket is one.
const MOST_LEVELS: usize = 32;

// A bracket that is open: the items before the one that it belongs to, and that one's path.
#[derive(Drop)]
pub(crate) struct Level {
    items: Vec<Item>,
    path: Vec<Name>,
    // the level of their first names
    first: usize,
}

// What was read of a mask: the open brackets, the outermost first, and within the innermost the
// whole items, the whole names of the item that stands there, and the bytes of its last name.
#[derive(Drop)]
pub(crate) struct Reader {
    alloc: Global,
    outer: Vec<Level>,
    items: Vec<Item>,
    path: Vec<Name>,
    name: Vec<u8>,
    // the level of the first names within the innermost bracket
    first: usize,
    place: Place,
}

impl Reader {
    pub(crate) fn new(alloc: Global) -> Reader
        ensures { Stands result [] }
    {
        Reader {
            alloc,
            outer: Vec::new(alloc),
            items: Vec::new(alloc),
            path: Vec::new(alloc),
            name: Vec::new(alloc),
            first: 1,
            place: Place::Start,
        }
    }

    /// The level of the name that comes or stands here.
    fn level(&self) -> usize
        ensures { self.now.first + length (names_of self.now) ≤ 32
            → result ≡ self.now.first + length (names_of self.now) }
    {
        self.first.saturating_add(self.path.len())
    }

    /// Puts the name to its path.
    fn end_name(&mut self) -> Result<(), AllocError>
        requires { IsNamed self.old.place }
        ensures named { OnOk result (names_of self.new
            ≡ names_of self.old ++ name_at self.old.place self.old.name.items ∷ []) }
        ensures none { OnOk result (self.new.name.items ≡ []) }
        ensures place { self.new.place ≡ self.old.place }
        ensures outer { self.new.outer ≡ self.old.outer }
        ensures items { self.new.items ≡ self.old.items }
        ensures first { self.new.first ≡ self.old.first }
    {
        let bytes = replace(&mut self.name, Vec::new(self.alloc));
        let name = if self.place == Place::Star {
            Name::Any
        } else {
            Name::Key(bytes)
        };
        self.path.push(name)?;
        Ok(())
    }

    /// Puts the item that stands here to the items.
    fn end_item(&mut self) -> Result<(), AllocError>
        requires { IsItem self.old.place }
        ensures holds { (text : List ℕ) → Holds self.old text → OnOk result (Holds self.new text) }
        ensures place { OnOk result (self.new.place ≡ Closed) }
        ensures outer { self.new.outer ≡ self.old.outer }
        ensures first { self.new.first ≡ self.old.first }
    {
        if self.place == Place::Closed {
            return Ok(());
        }
        self.end_name()?;
        let path = replace(&mut self.path, Vec::new(self.alloc));
        self.items.push(Item {
            path,
            inner: Vec::new(self.alloc),
        })?;
        self.place = Place::Closed;
        Ok(())
    }

    fn star(&mut self)
        requires { self.old.place ≡ Start }
        ensures { (text : List ℕ) → Holds self.old text
            → NextBy (stepped (stop_of self.old) sign.Star) self.new (Ok true) (text ++ 42 ∷ []) }
    {
        self.place = Place::Star;
    }

    fn letter(&mut self, byte: u8) -> Result<(), AllocError>
        requires place { MayGoOn self.old.place }
        requires byte { is_name_byte byte ≡ true }
        ensures { (text : List ℕ) → Holds self.old text
            → OnOk result (NextBy (stepped (stop_of self.old) sign.Letter) self.new (Ok true) (text ++ byte ∷ [])) }
    {
        self.name.push(byte)?;
        self.place = Place::Key;
        Ok(())
    }

    fn slash(&mut self) -> Result<bool, AllocError>
        requires { IsNamed self.old.place }
        ensures { (text : List ℕ) → Holds self.old text
            → NextBy (stepped (stop_of self.old) sign.Slash) self.new result (text ++ 47 ∷ []) }
    {
        if self.level() >= MOST_LEVELS {
            return Ok(false);
        }
        self.end_name()?;
        self.place = Place::Start;
        Ok(true)
    }

    fn open(&mut self) -> Result<bool, AllocError>
        requires { IsNamed self.old.place }
        ensures { (text : List ℕ) → Holds self.old text
            → NextBy (stepped (stop_of self.old) sign.Open) self.new result (text ++ 40 ∷ []) }
    {
        let level = self.level();
        if level >= MOST_LEVELS - 1 {
            return Ok(false);
        }
        self.end_name()?;
        let items = replace(&mut self.items, Vec::new(self.alloc));
        let path = replace(&mut self.path, Vec::new(self.alloc));
        let first = self.first;
        self.outer.push(Level { items, path, first })?;
        self.first = level + 2;
        self.place = Place::Start;
        Ok(true)
    }

    fn comma(&mut self) -> Result<(), AllocError>
        requires { IsItem self.old.place }
        ensures { (text : List ℕ) → Holds self.old text
            → OnOk result (NextBy (stepped (stop_of self.old) sign.Comma) self.new (Ok true) (text ++ 44 ∷ [])) }
    {
        self.end_item()?;
        self.place = Place::Start;
        Ok(())
    }

    fn close(&mut self) -> Result<bool, AllocError>
        requires { IsItem self.old.place }
        ensures { (text : List ℕ) → Holds self.old text
            → NextBy (stepped (stop_of self.old) sign.Close) self.new result (text ++ 41 ∷ []) }
    {
        self.end_item()?;
        let Some(level) = self.outer.pop() else {
            return Ok(false);
        };
        let inner = replace(&mut self.items, level.items);
        self.items.push(Item {
            path: level.path,
            inner,
        })?;
        self.first = level.first;
        Ok(true)
    }

    /// Takes the next byte. False: no mask within the levels begins so.
    pub(crate) fn take(&mut self, byte: u8) -> Result<bool, AllocError>
        ensures { (text : List ℕ) → Stands self.old text → Next self.new result (text ++ byte ∷ []) }
    {
        match sign_of(self.place, byte) {
            Sign::Star => {
                self.star();
                Ok(true)
            }
            Sign::Letter => {
                self.letter(byte)?;
                Ok(true)
            }
            Sign::Slash => self.slash(),
            Sign::Open => self.open(),
            Sign::Comma => {
                self.comma()?;
                Ok(true)
            }
            Sign::Close => self.close(),
            Sign::Bad => Ok(false),
        }
    }

    /// How many bytes at least a mask has behind what was read.
    pub(crate) fn needed(&self) -> usize
        ensures { result ≡ needed_of (stop_of self.now) }
    {
        match self.place {
            Place::Start => self.outer.len() + 1,
            Place::Key => self.outer.len(),
            Place::Star => self.outer.len(),
            Place::Closed => self.outer.len(),
        }
    }

    /// Whether what was read is a mask.
    pub(crate) fn is_whole(&self) -> bool
        ensures { IsTrue result ↔ IsWhole (stop_of self.now) }
    {
        match self.place {
            Place::Start => false,
            Place::Key => self.outer.is_empty(),
            Place::Star => self.outer.is_empty(),
            Place::Closed => self.outer.is_empty(),
        }
    }

    /// The items that were read.
    pub(crate) fn finish(mut self) -> Result<Vec<Item>, AllocError>
        requires { IsWhole (stop_of self) }
        ensures { (text : List ℕ) → Holds self text → length text ≤ 4096
            → IfOk result (λ v. IsMask (mask_of v.items) × (print (mask_of v.items) ≡ text)) }
    {
        self.end_item()?;
        Ok(self.items)
    }
}

/// Why a text is no mask.
#[derive(Debug, Drop)]
pub enum MaskFault {
    /// The longest front of the text that begins some mask within the limits has `place` bytes.
    Bad { place: u32 },
    NoMemory,
}

impl From<AllocError> for MaskFault {
    ghost use Rattle.gcs_fields.specs.declared.read.MaskFault.{MaskFault};
    ghost use Rattle.gcs_fields.specs.declared.read.MaskFault.TheVariants.{NoMemory};

    ghost from_gives = { λ e f. f ≡ NoMemory };

    fn from(_error: AllocError) -> MaskFault {
        MaskFault::NoMemory
    }
}

/// The mask that has this text: `item *("," item)`, an item being `path [ "(" mask ")" ]`, a path `name *("/" name)`, and a name
/// `*` or one or more letters, digits, `_` and `-`. At most 4,096 bytes and 32 levels, where each name and each bracket on the
/// way to a name is one.
///
/// Source: Google's Cloud Storage, "JSON API: partial response"; the limits, and the place that a refusal names, are our own.
pub fn read_mask(alloc: Global, text: &[u8]) -> Result<Mask, MaskFault>
    ensures ok { IfOk result (λ m. IsMask (mask_of m) × (print (mask_of m) ≡ text.now)) }
    ensures bad { IfErr result (IsFault text.now) }
{
    let mut reader = Reader::new(alloc);
    for (place, byte) in text.iter().enumerate() {
        if place >= MOST_BYTES {
            return Err(MaskFault::Bad {
                place: place as u32,
            });
        }
        if !reader.take(*byte)? {
            return Err(MaskFault::Bad {
                place: place as u32,
            });
        }
        if reader.needed() > MOST_BYTES - 1 - place {
            return Err(MaskFault::Bad {
                place: place as u32,
            });
        }
    }
    if !reader.is_whole() {
        return Err(MaskFault::Bad {
            place: text.len() as u32,
        });
    }
    Ok(Mask::new(reader.finish()?))
}

//! A multipart body while it comes, of which two parts are wanted: JSON, and then the content.
ghost use Rattle.std.specs.Prelude.{◌≡◌, ◌≤◌, ◌<◌, ◌++◌, ◌∷◌, ℕ, Bool, List, [], length, take, IfOk, OnOk};
ghost use Rattle.gcs_chunks.specs.Content.{ChunksValue};
ghost use Rattle.gcs_meaning.specs.Desk.{AreUnmoved};
ghost use Rattle.gcs_multipart.specs.Delimiter.{IsBoundary};
ghost use Rattle.gcs_multipart.specs.Grammar.{Part};
ghost use Rattle.gcs_multipart.specs.Stands.{Stands};
ghost use Rattle.gcs_request.specs.declared.heading.HeadPart.TheVariants as part;
ghost use Rattle.gcs_request.specs.Bodies.{IsCome};
ghost use Rattle.gcs_request.specs.Contents.{ComeLiesIn};
ghost use Rattle.gcs_session.specs.Contents.{PartsKeptLieIn, TwoPartsLieIn};
ghost use Rattle.gcs_session.specs.TwoParts.{AreKept, AreRead};

use crate::bounded::{Bounded, TextFault};
use crate::hashing::Hashing;
use gcs_meaning::{Desk, Text};
use gcs_multipart::{PartTaken, Parts};
use gcs_request::{Come, text_of_field};
use std::alloc::{AllocError, Global};
use std::mem;

/// What is kept of the parts that have begun.
#[derive(Drop)]
pub enum PartsKept {
    /// None has begun.
    Nothing,
    /// Of one part, its bytes as a text.
    One(Bounded),
    /// Of two parts, the text, and the content with its type.
    Two {
        text: Bounded,
        kind: Option<Text>,
        content: Hashing,
    },
    /// The first part is too long for a text, whatever follows it.
    TooLong,
    /// There are more than two.
    Others,
}

/// What has come of a body of which two parts are wanted. The first one is a text that may have at most so many bytes.
#[derive(Drop)]
pub struct TwoParts {
    alloc: Global,
    most: u64,
    parts: Parts,
    kept: PartsKept,
}

impl TwoParts {
    /// Nothing has come. `Err`: no memory.
    pub fn new(alloc: Global, boundary: &[u8], most: u64) -> Result<TwoParts, AllocError>
        requires { IsBoundary boundary.now }
        ensures read { IfOk result (λ two. AreRead most boundary.now two []) }
        ensures lies { IfOk result (λ two. (chunks : ChunksValue) → TwoPartsLieIn chunks two) }
    {
        Ok(TwoParts {
            alloc,
            most,
            parts: Parts::new(alloc, boundary)?,
            kept: PartsKept::Nothing,
        })
    }

    /// Takes more bytes. `Err`: no memory for them.
    pub fn take<D: Desk>(&mut self, desk: &mut D, piece: &[u8]) -> Result<(), AllocError>
        ensures read { OnOk result ((most : ℕ) (boundary bytes : List ℕ) → AreRead most boundary self.old bytes → AreRead most boundary self.new (bytes ++ piece.now)) }
        ensures lies { TwoPartsLieIn (D.stands desk.old).chunks self.old → TwoPartsLieIn (D.stands desk.old).chunks self.new }
        ensures stands { D.stands desk.new ≡ D.stands desk.old }
        ensures lists { AreUnmoved (D.seen desk.old) (D.mine desk.old) (D.seen desk.new) (D.mine desk.new) }
    {
        let mut rest = piece;
        while !rest.is_empty() {
            let taken = self.take_event(desk, rest)?;
            rest = &rest[taken..];
        }
        Ok(())
    }

    // Takes bytes up to the next event of the parts, and answers how many. `Err`: no memory for them.
    fn take_event<D: Desk>(&mut self, desk: &mut D, piece: &[u8]) -> Result<usize, AllocError>
        requires { 0 < length piece.now }
        ensures some { IfOk result (λ taken. 0 < taken) }
        ensures within { IfOk result (λ taken. taken ≤ length piece.now) }
        ensures read { IfOk result (λ taken. (most : ℕ) (boundary bytes : List ℕ) → AreRead most boundary self.old bytes → AreRead most boundary self.new (bytes ++ take taken piece.now)) }
        ensures lies { TwoPartsLieIn (D.stands desk.old).chunks self.old → TwoPartsLieIn (D.stands desk.old).chunks self.new }
        ensures stands { D.stands desk.new ≡ D.stands desk.old }
        ensures lists { AreUnmoved (D.seen desk.old) (D.mine desk.old) (D.seen desk.new) (D.mine desk.new) }
    {
        match self.parts.feed(piece) {
            PartTaken::PartHead { taken } => {
                self.begin_part()?;
                Ok(taken)
            }
            PartTaken::Content { taken, from, to } => {
                self.kept.add(desk, self.parts.held())?;
                self.kept.add(desk, &piece[from..to])?;
                Ok(taken)
            }
            PartTaken::More { taken }
            | PartTaken::PartEnd { taken }
            | PartTaken::Last { taken }
            | PartTaken::BadPart { taken } => Ok(taken),
        }
    }

    // The lines of a part have come. `Err`: no memory, and what was kept is given up.
    fn begin_part(&mut self) -> Result<(), AllocError>
        ensures others { self.new ≡ record self.old { kept = self.new.kept } }
        ensures kept { OnOk result ((boundary bytes head : List ℕ) (whole parts : List Part) → Stands self.old.parts boundary bytes whole (Some record { head = head; content = [] })
            → AreKept self.old.most self.old.kept parts → AreKept self.old.most self.new.kept (record { head = head; content = [] } ∷ parts)) }
        ensures lies { (chunks : ChunksValue) → TwoPartsLieIn chunks self.new }
    {
        let kept = mem::replace(&mut self.kept, PartsKept::Others);
        self.kept = kept.with_part(self.alloc, self.most, &self.parts)?;
        Ok(())
    }

    /// What has come, once the body is whole. `Err`: no memory for it.
    pub fn finish<D: Desk>(self, desk: &mut D) -> Result<Come, AllocError>
        requires { (most : ℕ) × (boundary : List ℕ) × (bytes : List ℕ) × AreRead most boundary self bytes }
        ensures come { IfOk result (λ come. (most : ℕ) (boundary bytes : List ℕ) (encoded : Bool) → AreRead most boundary self bytes → IsCome most (part.Parts boundary encoded) bytes come) }
        ensures lies { IfOk result (λ come. TwoPartsLieIn (D.stands desk.old).chunks self → ComeLiesIn (D.stands desk.old).chunks come) }
        ensures stands { D.stands desk.new ≡ D.stands desk.old }
        ensures lists { AreUnmoved (D.seen desk.old) (D.mine desk.old) (D.seen desk.new) (D.mine desk.new) }
    {
        let TwoParts { parts, kept, .. } = self;
        let is_over = parts.is_over();
        let held = parts.held_back();
        drop(parts);
        match kept {
            PartsKept::Nothing => Ok(Come::OtherParts),
            PartsKept::One(text) => {
                if text.has_room(held) {
                    return Ok(Come::OtherParts);
                }
                Ok(Come::TooLong)
            }
            PartsKept::Two {
                text,
                kind,
                content,
            } => {
                if !is_over {
                    return Ok(Come::OtherParts);
                }
                let hashed = content.finish(desk)?;
                Ok(Come::Two {
                    text: text.into_bytes(),
                    kind,
                    hashed,
                })
            }
            PartsKept::TooLong => Ok(Come::TooLong),
            PartsKept::Others => Ok(Come::OtherParts),
        }
    }
}

impl PartsKept {
    // Once a further part begins, whose lines have come. `Err`: no memory.
    fn with_part(self, alloc: Global, most: u64, reader: &Parts) -> Result<PartsKept, AllocError>
        ensures kept { IfOk result (λ kept. (boundary bytes head : List ℕ) (whole parts : List Part) → Stands reader.now boundary bytes whole (Some record { head = head; content = [] })
            → AreKept most self parts → AreKept most kept (record { head = head; content = [] } ∷ parts)) }
        ensures lies { IfOk result (λ kept. (chunks : ChunksValue) → PartsKeptLieIn chunks kept) }
    {
        match self {
            PartsKept::Nothing => Ok(PartsKept::One(Bounded::new(alloc, most))),
            PartsKept::One(text) => match text_of_field(alloc, reader.content_type()) {
                Ok(kind) => Ok(PartsKept::Two {
                    text,
                    kind,
                    content: Hashing::new(alloc, 0),
                }),
                Err(error) => {
                    drop(text);
                    Err(error)
                }
            },
            PartsKept::Two { .. } | PartsKept::Others => Ok(PartsKept::Others),
            PartsKept::TooLong => Ok(PartsKept::TooLong),
        }
    }

    // More content of the part that began last. `Err`: no memory for it.
    fn add<D: Desk>(&mut self, desk: &mut D, part: &[u8]) -> Result<(), AllocError>
        ensures kept { OnOk result ((most : ℕ) (head content : List ℕ) (parts : List Part) → AreKept most self.old (record { head = head; content = content } ∷ parts)
            → AreKept most self.new (record { head = head; content = content ++ part.now } ∷ parts)) }
        ensures lies { PartsKeptLieIn (D.stands desk.old).chunks self.old → PartsKeptLieIn (D.stands desk.old).chunks self.new }
        ensures stands { D.stands desk.new ≡ D.stands desk.old }
        ensures lists { AreUnmoved (D.seen desk.old) (D.mine desk.old) (D.seen desk.new) (D.mine desk.new) }
    {
        match self {
            PartsKept::One(text) => match text.add(part) {
                Ok(()) => Ok(()),
                Err(TextFault::TooLong) => {
                    *self = PartsKept::TooLong;
                    Ok(())
                }
                Err(TextFault::NoMemory) => Err(AllocError),
            },
            PartsKept::Two { content, .. } => content.keep(desk, part),
            PartsKept::Nothing | PartsKept::TooLong | PartsKept::Others => Ok(()),
        }
    }
}

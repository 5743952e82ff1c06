//! The body of a message while it comes.
ghost use Rattle.std.specs.Prelude.{◌≡◌, ◌++◌, ℕ, List, [], IfOk, IfSome};
ghost use Rattle.gcs_chunks.specs.Content.{ChunksValue};
ghost use Rattle.gcs_meaning.specs.Desk.{AreUnmoved};
ghost use Rattle.gcs_request.specs.declared.heading.HeadPart.{HeadPart};
ghost use Rattle.gcs_request.specs.Bodies.{IsCome};
ghost use Rattle.gcs_request.specs.Contents.{ComeLiesIn};
ghost use Rattle.gcs_request.specs.Heading.{IsSeekable};
ghost use Rattle.gcs_session.specs.Bodies.{part_in, AreReadIf, IsGathered, IsHashingIf, IsHeldIf, IsTextIf};
ghost use Rattle.gcs_session.specs.Contents.{BodyLiesIn, HashingLiesIn, KeptLiesIn, TwoPartsLieIn};

use crate::bounded::{Bounded, TextFault};
use crate::hashing::Hashing;
use crate::kept::Kept;
use crate::two_parts::TwoParts;
use gcs_meaning::Desk;
use gcs_request::{Come, HeadPart, Heading};
use std::alloc::{AllocError, Global};

/// What has come of a body.
#[derive(Drop)]
pub enum Body {
    PassedOver,
    /// What is kept of a content. `None`: memory lacked for it. What was kept is given up, and the rest is passed over.
    Content(Option<Hashing>),
    /// What is kept of a piece of an upload, as of a content. Its bytes are not digested.
    Piece(Option<Kept>),
    /// What is gathered of a text. `Err`: it is too long, or memory lacked for it, and the rest is passed over.
    Text(Result<Bounded, TextFault>),
    /// What is read of two parts. `None`: memory lacked for it, and the rest is passed over.
    Parts(Option<TwoParts>),
}

impl Body {
    /// The body of a message with this heading, of which nothing has come. JSON in it may have at most `most` bytes; as
    /// many as `expected` are to come, or 0 where that isn't known.
    pub fn new(alloc: Global, heading: &Option<Heading>, most: u64, expected: u64) -> Body
        requires { IsSeekable (part_in heading.now) }
        ensures gathered { IsGathered most (part_in heading.now) result [] }
        ensures lies { (chunks : ChunksValue) → BodyLiesIn chunks result }
    {
        match heading {
            Some(Heading::Asks { part, .. }) => Body::behind(alloc, part, most, expected),
            Some(Heading::Refused(_)) | None => Body::PassedOver,
        }
    }

    // The body behind a head that gives this part.
    fn behind(alloc: Global, part: &HeadPart, most: u64, expected: u64) -> Body
        requires { IsSeekable part.now }
        ensures gathered { IsGathered most part.now result [] }
        ensures lies { (chunks : ChunksValue) → BodyLiesIn chunks result }
    {
        match part {
            HeadPart::Nothing | HeadPart::Read { .. } => Body::PassedOver,
            HeadPart::Whole { .. } => Body::Content(Some(Hashing::new(alloc, expected))),
            HeadPart::Piece { .. } => Body::Piece(Some(Kept::new(alloc, expected))),
            HeadPart::Json { .. } | HeadPart::Begin { .. } => {
                Body::Text(Ok(Bounded::new(alloc, most)))
            }
            HeadPart::Parts { boundary, .. } => {
                Body::Parts(TwoParts::new(alloc, boundary.as_slice(), most).ok())
            }
        }
    }

    /// Takes more bytes.
    pub fn take<D: Desk>(&mut self, desk: &mut D, piece: &[u8])
        ensures gathered { (most : ℕ) (part : HeadPart) (bytes : List ℕ) → IsGathered most part self.old bytes → IsGathered most part self.new (bytes ++ piece.now) }
        ensures lies { BodyLiesIn (D.stands desk.old).chunks self.old → BodyLiesIn (D.stands desk.old).chunks self.new }
        ensures stands { D.stands desk.new ≡ D.stands desk.old }
        ensures lists { AreUnmoved (D.seen desk.old) (D.mine desk.old) (D.seen desk.new) (D.mine desk.new) }
    {
        match self {
            Body::PassedOver => {}
            Body::Content(content) => hash_more(desk, content, piece),
            Body::Piece(kept) => keep_more(desk, kept, piece),
            Body::Text(text) => gather_more(text, piece),
            Body::Parts(parts) => read_more(desk, parts, piece),
        }
    }

    /// What has come, once the body is whole. `Err`: memory lacked for it.
    pub fn finish<D: Desk>(self, desk: &mut D) -> Result<Come, AllocError>
        requires { (most : ℕ) × (part : HeadPart) × (bytes : List ℕ) × IsGathered most part self bytes }
        ensures come { IfOk result (λ come. (most : ℕ) (part : HeadPart) (bytes : List ℕ) → IsGathered most part self bytes → IsCome most part bytes come) }
        ensures lies { IfOk result (λ come. BodyLiesIn (D.stands desk.old).chunks self → ComeLiesIn (D.stands desk.old).chunks come) }
        ensures stands { D.stands desk.new ≡ D.stands desk.old }
        ensures lists { AreUnmoved (D.seen desk.old) (D.mine desk.old) (D.seen desk.new) (D.mine desk.new) }
    {
        match self {
            Body::PassedOver => Ok(Come::PassedOver),
            Body::Content(Some(content)) => Ok(Come::Content(content.finish(desk)?)),
            Body::Piece(Some(kept)) => Ok(Come::Piece(kept.finish(desk)?)),
            Body::Text(Ok(text)) => Ok(Come::Text(text.into_bytes())),
            Body::Text(Err(TextFault::TooLong)) => Ok(Come::TooLong),
            Body::Parts(Some(parts)) => parts.finish(desk),
            Body::Content(None)
            | Body::Piece(None)
            | Body::Text(Err(TextFault::NoMemory))
            | Body::Parts(None) => Err(AllocError),
        }
    }
}

// Keeps more bytes of a content, if memory did not lack yet.
fn hash_more<D: Desk>(desk: &mut D, content: &mut Option<Hashing>, piece: &[u8])
    ensures held { (bytes : List ℕ) → IsHashingIf content.old bytes → IsHashingIf content.new (bytes ++ piece.now) }
    ensures lies { IfSome content.old (HashingLiesIn (D.stands desk.old).chunks) → IfSome content.new (HashingLiesIn (D.stands desk.old).chunks) }
    ensures stands { D.stands desk.new ≡ D.stands desk.old }
    ensures lists { AreUnmoved (D.seen desk.old) (D.mine desk.old) (D.seen desk.new) (D.mine desk.new) }
{
    let Some(hashing) = content else {
        return;
    };
    if hashing.keep(desk, piece).is_err() {
        *content = None;
    }
}

// Keeps more bytes of a piece, if memory did not lack yet.
fn keep_more<D: Desk>(desk: &mut D, kept: &mut Option<Kept>, piece: &[u8])
    ensures held { (bytes : List ℕ) → IsHeldIf kept.old bytes → IsHeldIf kept.new (bytes ++ piece.now) }
    ensures lies { IfSome kept.old (KeptLiesIn (D.stands desk.old).chunks) → IfSome kept.new (KeptLiesIn (D.stands desk.old).chunks) }
    ensures stands { D.stands desk.new ≡ D.stands desk.old }
    ensures lists { AreUnmoved (D.seen desk.old) (D.mine desk.old) (D.seen desk.new) (D.mine desk.new) }
{
    let Some(content) = kept else {
        return;
    };
    if content.keep(desk, piece).is_err() {
        *kept = None;
    }
}

// Gathers more bytes of a text, if it is still there.
fn gather_more(text: &mut Result<Bounded, TextFault>, piece: &[u8])
    ensures { (most : ℕ) (bytes : List ℕ) → IsTextIf most text.old bytes → IsTextIf most text.new (bytes ++ piece.now) }
{
    let Ok(bounded) = text else {
        return;
    };
    if let Err(fault) = bounded.add(piece) {
        *text = Err(fault);
    }
}

// Reads more bytes of two parts, if memory did not lack yet.
fn read_more<D: Desk>(desk: &mut D, parts: &mut Option<TwoParts>, piece: &[u8])
    ensures read { (most : ℕ) (boundary bytes : List ℕ) → AreReadIf most boundary parts.old bytes → AreReadIf most boundary parts.new (bytes ++ piece.now) }
    ensures lies { IfSome parts.old (TwoPartsLieIn (D.stands desk.old).chunks) → IfSome parts.new (TwoPartsLieIn (D.stands desk.old).chunks) }
    ensures stands { D.stands desk.new ≡ D.stands desk.old }
    ensures lists { AreUnmoved (D.seen desk.old) (D.mine desk.old) (D.seen desk.new) (D.mine desk.new) }
{
    let Some(two) = parts else {
        return;
    };
    if two.take(desk, piece).is_err() {
        *parts = None;
    }
}

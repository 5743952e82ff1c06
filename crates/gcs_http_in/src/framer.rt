//! Messages as they come, in pieces of any size.
ghost use Rattle.std.specs.Prelude.{◌≡◌, ◌≢◌, ℕ, ◌+◌, ◌-◌, ◌<◌, ◌≤◌, ◌++◌, List, [], ◌∷◌, length, take, slice_range, vec_len, IfOk, ◌&&◌, not, ◌==◌, Option, Some, None};
ghost use Rattle.gcs_http_in.specs.declared.state.State.TheVariants.{Head as AtHead, Chunked as AtChunks};

mod parts;

use crate::chunked::{ChunkStep, ChunkedBody};
use crate::fields::Framing;
use crate::head::stays_bare;
use crate::limits::Limits;
use crate::reader::{HeadReader, HeadStep};
use crate::state::{State, Step, Taken};
use std::alloc::{AllocError, Global};

/// Reads the messages of a connection from its bytes. It takes all its memory when it is made.
///
/// piece "PUT /a HTTP/1.1\r\nContent-Length: 3\r\n\r\nab"    Head
/// its last 2 bytes                                      Body, 2 bytes
/// piece "cGET"                                          Body, 1 byte
/// piece "GET"                                           End, 0 bytes
/// piece "GET"                                           More
#[derive(Drop)]
pub struct Framer {
    head: HeadReader,
    body: ChunkedBody,
    /// How many messages may still come.
    left: u32,
    /// Whether the current message keeps the connection.
    keeps: bool,
    state: State,
    ghost room: { state ≡ AtHead → head.text.filled < vec_len head.text.bytes },
    ghost most: { body.most ≡ head.limits.body },
}

impl Framer {
    ghost use Rattle.gcs_http_in.specs.Usual.{IsAllowed};
    ghost use Rattle.gcs_http_in.specs.Copies.{IsSameFramer};
    ghost use Rattle.std.specs.Prelude.{false};
    ghost use Rattle.std.specs.List.{list_all};
    ghost use Rattle.gcs_http_in.specs.Lines.{is_end_byte};
    ghost use Rattle.gcs_http_in.specs.Message.{Message, whole, Spells};
    ghost use Rattle.gcs_http_in.specs.ChunkState.{left_of};
    ghost use Rattle.gcs_http_in.specs.Progress.{Current};
    ghost use Rattle.gcs_http_in.specs.Stands.{Stands, Pushed, TakesContent, StaysOpen, Told, Took, IsDue, IsReady, IsAtByte, content_left, limits_of};

    /// A framer that has taken nothing. `Err`: no memory for a head.
    pub fn new(alloc: Global, limits: &Limits) -> Result<Framer, AllocError>
        requires { IsAllowed limits.now }
        ensures limits { IfOk result (λ f. limits_of f ≡ limits.now) }
        ensures stands { IfOk result (λ f. Stands f [] [] None) }
    {
        let head = HeadReader::new(alloc, limits)?;
        let body = ChunkedBody::new(alloc, limits.body)?;
        Ok(Framer {
            head,
            body,
            left: limits.requests,
            keeps: true,
            state: State::Head,
        })
    }

    /// A framer that has taken the same bytes, and reads on as this one. `Err`: no memory for a head.
    pub fn copy(&self) -> Result<Framer, AllocError>
        ensures same { IfOk result (λ made. IsSameFramer made self.now) }
        ensures stands { IfOk result (λ made. (bytes : List ℕ) (messages : List Message) (current : Option Current)
            → Stands self.now bytes messages current → Stands made bytes messages current) }
    {
        Ok(Framer {
            head: self.head.copy()?,
            body: self.body.copy()?,
            left: self.left,
            keeps: self.keeps,
            state: self.state,
        })
    }

    /// How many bytes of content come next: what is left of the message's, or where it comes in chunks, of the chunk's.
    /// 0 outside a content.
    pub fn content_left(&self) -> u64
        ensures { result ≡ content_left self.now self.now.state }
    {
        match self.state {
            State::Length(count) => count,
            State::Chunked => self.body.content_left(),
            _ => 0,
        }
    }

    /// Takes bytes of the piece up to the first event, and tells it. A call takes at least a byte, or tells the end of
    /// a message whose last byte was told before, or answers `More` on an empty piece. So after a head or content, feed
    /// again with what is left of the piece, even if that is empty.
    pub fn feed(&mut self, piece: &[u8]) -> Taken
        ensures limits { limits_of self.new ≡ limits_of self.old }
        ensures took { Took self.old self.new piece.now result }
        ensures told { (bytes : List ℕ) (messages : List Message) (current : Option Current)
            → Stands self.old bytes messages current
            → Told self.new piece.now result bytes messages current }
    {
        if let State::Length(0) = self.state {
            self.end();
            return Taken::End { taken: 0 };
        }
        let mut at = 0;
        while at < piece.len() {
            let left = self.content_left();
            if left > 0 {
                let to = at + left.min((piece.len() - at) as u64) as usize;
                self.take((to - at) as u64);
                return Taken::Body {
                    taken: to,
                    from: at,
                    to,
                };
            }
            let step = self.push(piece[at]);
            at += 1;
            match step {
                Step::More => {}
                Step::Head => return Taken::Head { taken: at },
                Step::End => return Taken::End { taken: at },
                Step::Fault(fault) => return Taken::Fault { taken: at, fault },
            }
        }
        Taken::More { taken: at }
    }

    /// The limits that it was made with.
    pub fn limits(&self) -> Limits
        ensures { result ≡ limits_of self.now }
    {
        self.head.limits()
    }

    /// Whether only CR and LF bytes came since the last end.
    pub fn at_start(&self) -> bool
        ensures inside { (bytes : List ℕ) (messages : List Message) (it : Current)
            → Stands self.now bytes messages (Some it) → result ≡ false }
        ensures between { (bytes : List ℕ) (messages : List Message) (rest : List ℕ)
            → Stands self.now bytes messages None → Spells (limits_of self.now) bytes messages rest → result ≡ list_all is_end_byte rest }
    {
        match self.state {
            State::Head => self.head.is_bare(),
            State::Closed { bare } => bare,
            State::Length(_) | State::Chunked => false,
        }
    }

    fn push_head(&mut self, byte: u8) -> Step
        requires { self.old.state ≡ AtHead }
        ensures limits { limits_of self.new ≡ limits_of self.old }
        ensures open { StaysOpen self.new.state result }
        ensures next { (bytes : List ℕ) (messages : List Message) (current : Option Current)
            → Stands self.old bytes messages current
            → Pushed self.new result (bytes ++ byte ∷ []) messages current }
    {
        match self.head.push(byte) {
            HeadStep::More => {
                self.state = State::Head;
                Step::More
            }
            HeadStep::Whole(Framing::Length(count)) => {
                self.keeps = keeps_by(self.head.stays(), self.left);
                self.state = State::Length(count);
                Step::Head
            }
            HeadStep::Whole(Framing::Chunked) => {
                self.keeps = keeps_by(self.head.stays(), self.left);
                self.body.begin();
                self.state = State::Chunked;
                Step::Head
            }
            HeadStep::Fault(fault) => {
                self.state = State::Closed { bare: true };
                Step::Fault(fault)
            }
        }
    }

    /// Ends the message, whose last byte has come.
    fn end(&mut self)
        ensures limits { limits_of self.new ≡ limits_of self.old }
        ensures open { IsDue self.new.state → ⊥ }
        ensures next { (bytes : List ℕ) (messages : List Message) (it : Current)
            → IsReady self.old bytes messages it
            → Stands self.new bytes (messages ++ whole it.head it.content self.old.keeps ∷ []) None }
    {
        if !self.keeps {
            self.state = State::Closed { bare: true };
            return;
        }
        self.left = self.left.saturating_sub(1);
        self.head.begin();
        self.state = State::Head;
    }

    fn push_chunked(&mut self, byte: u8) -> Step
        requires chunked { self.old.state ≡ AtChunks }
        requires at_byte { left_of self.old.body.place ≡ 0 }
        ensures limits { limits_of self.new ≡ limits_of self.old }
        ensures open { StaysOpen self.new.state result }
        ensures next { (bytes : List ℕ) (messages : List Message) (current : Option Current)
            → Stands self.old bytes messages current
            → Pushed self.new result (bytes ++ byte ∷ []) messages current }
    {
        match self.body.push(byte) {
            ChunkStep::More => {
                self.state = State::Chunked;
                Step::More
            }
            ChunkStep::End => {
                self.end();
                Step::End
            }
            ChunkStep::Fault(fault) => {
                self.state = State::Closed { bare: true };
                Step::Fault(fault)
            }
        }
    }

    /// Takes the next byte, which is none of content.
    fn push(&mut self, byte: u8) -> Step
        requires { IsAtByte self.old self.old.state }
        ensures limits { limits_of self.new ≡ limits_of self.old }
        ensures open { StaysOpen self.new.state result }
        ensures next { (bytes : List ℕ) (messages : List Message) (current : Option Current)
            → Stands self.old bytes messages current
            → Pushed self.new result (bytes ++ byte ∷ []) messages current }
    {
        match self.state {
            State::Head => self.push_head(byte),
            State::Chunked => self.push_chunked(byte),
            State::Length(_) => Step::More,
            State::Closed { bare } => {
                self.state = State::Closed {
                    bare: stays_bare(bare, byte),
                };
                Step::More
            }
        }
    }

    /// Takes so many bytes of content.
    fn take(&mut self, count: u64)
        requires { count ≤ content_left self.old self.old.state }
        ensures limits { limits_of self.new ≡ limits_of self.old }
        ensures next { (bytes piece : List ℕ) (messages : List Message) (current : Option Current)
            → Stands self.old bytes messages current → 0 < count → length piece ≡ count → TakesContent self.new piece bytes messages current }
    {
        match self.state {
            State::Length(left) => self.state = State::Length(left - count),
            State::Chunked => {
                self.body.take(count);
                self.state = State::Chunked;
            }
            _ => {}
        }
    }
}

/// Whether a message keeps the connection, if so many messages may come, this one too.
fn keeps_by(stays: bool, left: u32) -> bool
    ensures { result ≡ (stays && not (left == 1)) }
{
    stays && left != 1
}

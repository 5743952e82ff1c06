//! The parts of a multipart body as they come.
ghost use Rattle.std.specs.Prelude.{◌≡◌, ◌≢◌, ℕ, ◌+◌, ◌<◌, ◌≤◌, ◌++◌, List, [], ◌∷◌, length, take, slice_range, IfOk, vec_len, Option, Some, None};
ghost use Rattle.std.specs.List.{AllByRecursion};
ghost use Rattle.gcs_multipart.specs.declared.parts.State.TheVariants.{Head as InLines, Preamble as AtPreamble, Content as AtContent};

use crate::fields::first_value;
use crate::head::HeadText;
use crate::mark::{Mark, Sought};
use crate::seek::Seeker;
use std::alloc::{AllocError, Global};

// The most bytes of a part's lines, with the empty one.
const HEAD_ROOM: usize = 32_768;

/// Where the body stands.
#[derive(Clone, Copy)]
pub(crate) enum State {
    Preamble,
    Head,
    Content,
    Last,
    Bad,
}

/// What a byte brings.
#[derive(Clone, Copy)]
pub(crate) enum Step {
    More,
    Head,
    /// The bytes that were held are content.
    Given,
    /// The bytes that were held are content, and this one.
    Passed,
    End,
    Last,
    Bad,
}

/// What a call took of a piece, `taken` bytes, and what it brought.
#[derive(Clone, Copy, Debug, PartialEq, Eq)]
pub enum PartTaken {
    /// No event: the piece was taken whole.
    More {
        taken: usize,
    },
    /// The lines of a part have come, with the empty one.
    PartHead {
        taken: usize,
    },
    /// More content of the part: `Parts::held`, then `piece[from..to]`.
    Content {
        taken: usize,
        from: usize,
        to: usize,
    },
    /// The part has ended, and another one follows.
    PartEnd {
        taken: usize,
    },
    /// The last delimiter came: the part has ended, if there is one. The bytes behind it are passed over.
    Last {
        taken: usize,
    },
    /// The lines of a part are too long. From here on each call says so, and takes the whole piece.
    BadPart {
        taken: usize,
    },
}

/// Reads the parts of a multipart body from bytes that come in pieces. It takes its memory when it is made.
///
/// ```text
/// boundary b            in content            held back        told
/// --b CR LF             no                    nothing          More
/// A: 1 CR LF CR LF      yes                   nothing          PartHead
/// one CR LF --          yes                   CR LF - -        Content: one
/// x                     yes                   nothing          Content: CR LF - - by `held`, and x
/// CR LF --b CR LF       no                    nothing          PartEnd
/// ```
#[derive(Drop)]
pub struct Parts {
    seeker: Seeker,
    head: HeadText,
    state: State,
    ghost head_room: { vec_len head.bytes ≡ 32768 },
    ghost room: { state ≡ InLines → head.filled < vec_len head.bytes },
}

impl Parts {
    ghost use Rattle.std.specs.Option.{option_copied};
    ghost use Rattle.std.specs.Prelude.{false, true};
    ghost use Rattle.gcs_multipart.specs.Delimiter.{IsBoundary};
    ghost use Rattle.gcs_multipart.specs.Fields.{type_of};
    ghost use Rattle.gcs_multipart.specs.FirstContent.{IsFirstContent};
    ghost use Rattle.gcs_multipart.specs.Grammar.{IsBody, Part};
    ghost use Rattle.gcs_multipart.specs.Stands.{Stands, Brings, HoldsFew, IsInPiece, Tells, held_of};

    /// Parts of a body with this boundary, which has no CR, as none that `boundary` gives. `Err`: no memory.
    pub fn new(alloc: Global, boundary: &[u8]) -> Result<Parts, AllocError>
        requires { IsBoundary boundary.now }
        ensures { IfOk result (λ p. Stands p boundary.now [] [] None) }
    {
        // At the body's begin the first CR LF of a delimiter isn't needed.
        let seeker = Seeker::new(alloc, boundary)?;
        let head = HeadText::new(alloc, HEAD_ROOM)?;
        Ok(Parts {
            seeker,
            head,
            state: State::Preamble,
        })
    }

    /// A reader that has read the same, in memory of its own. `Err`: no memory.
    pub fn copy(&self) -> Result<Parts, AllocError>
        ensures stands { IfOk result (λ p. (boundary bytes : List ℕ) (parts : List Part) (current : Option Part)
            → Stands self.now boundary bytes parts current → Stands p boundary bytes parts current) }
        ensures held { IfOk result (λ p. held_of p ≡ held_of self.now) }
    {
        Ok(Parts {
            seeker: self.seeker.copy()?,
            head: self.head.copy()?,
            state: self.state,
        })
    }

    /// The bytes that were held back and are content, behind the `Content` that was just told.
    pub fn held(&self) -> &[u8]
        ensures { result.now ≡ held_of self.now }
    {
        self.seeker.given()
    }

    /// Whether the last delimiter came, so that the bytes are a whole body.
    pub fn is_over(&self) -> bool
        ensures whole { result ≡ true → (boundary bytes : List ℕ) (parts : List Part) (current : Option Part)
            → Stands self.now boundary bytes parts current → IsBody boundary parts bytes × (current ≡ None) }
        ensures none { result ≡ false → (boundary bytes : List ℕ) (parts : List Part) (current : Option Part) → IsBoundary boundary
            → Stands self.now boundary bytes parts current → (others : List Part) → IsBody boundary others bytes → ⊥ }
    {
        matches!(self.state, State::Last)
    }

    /// How many bytes are held back: they may begin a delimiter. Where the body ends here, they are content. Where no
    /// content comes, there are none.
    pub fn held_back(&self) -> usize
        ensures few { (boundary bytes : List ℕ) (parts : List Part) (it : Part)
            → Stands self.now boundary bytes parts (Some it) → result ≤ length boundary + 5 }
        ensures content { (boundary bytes : List ℕ) (it : Part) → IsBoundary boundary → Stands self.now boundary bytes [] (Some it)
            → (content : List ℕ) × IsFirstContent boundary bytes content × (length content ≡ length it.content + result) }
        ensures none { (boundary bytes : List ℕ) (parts : List Part) → Stands self.now boundary bytes parts None → result ≡ 0 }
    {
        match self.state {
            State::Content => self.seeker.held(),
            _ => 0,
        }
    }

    /// The value of the first `Content-Type` of the part whose content comes, without the blanks round it. A line that
    /// goes on in the next one is read as far as its CR LF.
    pub fn content_type(&self) -> Option<&[u8]>
        ensures { (boundary bytes : List ℕ) (parts : List Part) (it : Part)
            → Stands self.now boundary bytes parts (Some it) → option_copied result ≡ type_of it.head }
    {
        first_value(self.head.text(), b"content-type")
    }

    fn push_preamble(&mut self, byte: u8) -> Step
        requires { self.old.state ≡ AtPreamble }
        ensures brought { Brings self.old self.new result byte }
        ensures few { HoldsFew self.new result }
    {
        match self.seeker.push(byte) {
            Sought::Held | Sought::Given | Sought::Passed => Step::More,
            Sought::Found(Mark::Next) => {
                self.head.begin();
                self.state = State::Head;
                Step::More
            }
            Sought::Found(Mark::Last) => {
                self.state = State::Last;
                Step::Last
            }
        }
    }

    fn push_head(&mut self, byte: u8) -> Step
        requires { self.old.state ≡ InLines }
        ensures brought { Brings self.old self.new result byte }
        ensures few { HoldsFew self.new result }
    {
        if self.head.push(byte) {
            self.seeker.begin();
            self.state = State::Content;
            return Step::Head;
        }
        if self.head.is_full() {
            self.state = State::Bad;
            return Step::Bad;
        }
        Step::More
    }

    fn push_content(&mut self, byte: u8) -> Step
        requires { self.old.state ≡ AtContent }
        ensures brought { Brings self.old self.new result byte }
        ensures few { HoldsFew self.new result }
    {
        match self.seeker.push(byte) {
            Sought::Held => Step::More,
            Sought::Given => Step::Given,
            Sought::Passed => Step::Passed,
            Sought::Found(Mark::Next) => {
                self.head.begin();
                self.state = State::Head;
                Step::End
            }
            Sought::Found(Mark::Last) => {
                self.state = State::Last;
                Step::Last
            }
        }
    }

    // Takes the next byte.
    fn push(&mut self, byte: u8) -> Step
        ensures brought { Brings self.old self.new result byte }
        ensures few { HoldsFew self.new result }
    {
        match self.state {
            State::Preamble => self.push_preamble(byte),
            State::Head => self.push_head(byte),
            State::Content => self.push_content(byte),
            State::Last => Step::More,
            State::Bad => Step::Bad,
        }
    }

    /// Takes what comes of the piece, up to the first event. Where bytes of the piece are left, feed them next; read
    /// `held` before that.
    pub fn feed(&mut self, piece: &[u8]) -> PartTaken
        ensures told { Tells self.old self.new result piece.now }
        ensures within { IsInPiece result (length piece.now) }
    {
        let mut at = 0;
        while at < piece.len() {
            let step = self.push(piece[at]);
            at += 1;
            match step {
                Step::More => {}
                Step::Head => return PartTaken::PartHead { taken: at },
                Step::Given | Step::Passed => {
                    let taken = at + self.seeker.pass(&piece[at..]);
                    return PartTaken::Content {
                        taken,
                        from: at - 1,
                        to: taken - self.seeker.held(),
                    };
                }
                Step::End => return PartTaken::PartEnd { taken: at },
                Step::Last => return PartTaken::Last { taken: at },
                Step::Bad => {
                    return PartTaken::BadPart { taken: piece.len() };
                }
            }
        }
        PartTaken::More { taken: at }
    }
}

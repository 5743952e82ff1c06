//! A connection as a machine: bytes in, any cutting, and the bytes of replies out.
ghost use Rattle.std.specs.Prelude.{◌≡◌, ◌≢◌, ◌≤◌, ◌<◌, ◌++◌, ℕ, Bool, List, [], IfOk, IfSome, length, min, take, drop, true, false, Option, None, Some};
ghost use Rattle.std.specs.List.{list_all};
ghost use Rattle.gcs_chunks.specs.Content.{ChunksValue};
ghost use Rattle.gcs_http_in.specs.declared.limits.Limits.{Limits};
ghost use Rattle.gcs_http_in.specs.Head.{Head};
ghost use Rattle.gcs_http_in.specs.Lines.{is_end_byte};
ghost use Rattle.gcs_http_in.specs.Message.{Message, whole, Spells};
ghost use Rattle.gcs_http_in.specs.Progress.{Current};
ghost use Rattle.gcs_http_in.specs.Stands.{IsInMessage, Stands, limits_of};
ghost use Rattle.gcs_http_in.specs.Usual.{IsAllowed};
ghost use Rattle.gcs_meaning.specs.Desk.{AreUnmoved};
ghost use Rattle.gcs_reply.specs.Replies.{fault_text};
ghost use Rattle.gcs_session.specs.Contents.{ComingLiesIn, SessionLiesIn};
ghost use Rattle.gcs_session.specs.Session.{IsFed, IsGatheredTo, IsReplied, IsRunning, IsSession, IsUnderWay, IsWanted, IsWholeIn, limits_in, waiting_in};

use crate::answering::respond;
use crate::coming::Coming;
use crate::unsent::Unsent;
use gcs_chunks::Chunks;
use gcs_http_in::{FrameFault, Framer, Limits, Taken};
use gcs_io::Clock;
use gcs_meaning::Desk;
use gcs_reply::{Outgoing, fault_reply};
use gcs_request::HeadFields;
use std::alloc::{AllocError, Global};

/// What a session wants next.
#[derive(Clone, Copy, Debug, PartialEq, Eq)]
pub enum Want {
    /// More bytes.
    More,
    /// That the bytes that wait are written.
    Drain,
    /// That the connection is closed.
    Close,
}

/// How many bytes of the piece were taken, and what the session wants next.
#[derive(Clone, Copy, Debug, PartialEq, Eq)]
pub struct Fed {
    pub taken: usize,
    pub want: Want,
}

impl Fed {
    // No byte was taken.
    fn nothing(want: Want) -> Fed
        ensures { result ≡ record { taken = 0; want = want } }
    {
        Fed { taken: 0, want }
    }
}

// What ends the gathering of bytes: their end, or that of a message.
#[derive(Clone, Copy, Debug, PartialEq, Eq)]
enum Event {
    More,
    End,
    Fault(FrameFault),
}

/// One connection: it is fed bytes, answers each message through a desk once it is whole, and gives out the bytes of the
/// replies. At most one message is answered in a call of `feed`, and no byte is taken while bytes wait to be written.
pub struct Session {
    alloc: Global,
    framer: Framer,
    coming: Option<Coming>,
    unsent: Unsent,
    closed: bool,
}

impl Drop for Session {
    fn drop(self) {
        let Session {
            alloc: _,
            framer,
            coming,
            unsent,
            closed: _,
        } = self;
        drop(framer);
        drop(coming);
        drop(unsent);
    }
}

impl Session {
    /// A session that has taken nothing. `Err`: no memory.
    pub fn new(alloc: Global, limits: &Limits) -> Result<Session, AllocError>
        requires { IsAllowed limits.now }
        ensures limits { IfOk result (λ s. limits_in s ≡ limits.now) }
        ensures session { IfOk result (λ s. IsSession s [] [] [] []) }
        ensures open { IfOk result (λ s. s.closed ≡ false) }
        ensures lies { IfOk result (λ s. (chunks : ChunksValue) → SessionLiesIn chunks s) }
    {
        Ok(Session {
            alloc,
            framer: Framer::new(alloc, limits)?,
            coming: None,
            unsent: Unsent::new(Outgoing::Fixed(b"")),
            closed: false,
        })
    }

    /// Takes bytes up to the end of a message, answers it, and tells what it wants next. Want of memory is answered by
    /// one of the two constant replies.
    pub fn feed<C: Clock, D: Desk>(
        &mut self,
        desk: &mut D,
        chunks: &Chunks,
        clock: &mut C,
        piece: &[u8],
    ) -> Fed
        requires chunks { (D.stands desk.old).chunks ≡ chunks.now }
        requires running { IsRunning self.old }
        requires lies { SessionLiesIn chunks.now self.old }
        ensures limits { limits_in self.new ≡ limits_in self.old }
        ensures stands { D.stands desk.new ≡ D.stands desk.old }
        ensures want { IsWanted self.old self.new piece.now result }
        ensures fed { (bytes : List ℕ) (messages : List Message) (text drained : List ℕ) → IsSession self.old bytes messages text drained
            → IsFed (D.stands desk.old).caller
            (record { given = C.given clock.old; saw = D.seen desk.old; own = D.mine desk.old })
            (record { given = C.given clock.new; saw = D.seen desk.new; own = D.mine desk.new })
            self.new piece.now result bytes messages text drained }
        ensures lies { SessionLiesIn chunks.now self.new }
    {
        if self.waits() {
            return Fed::nothing(Want::Drain);
        }
        if self.closed {
            return Fed::nothing(Want::Close);
        }
        let (taken, event) = self.gather(desk, piece);
        match event {
            Event::More => Fed {
                taken,
                want: Want::More,
            },
            Event::End => {
                self.answer(desk, chunks, clock);
                Fed {
                    taken,
                    want: Want::Drain,
                }
            }
            Event::Fault(fault) => {
                self.refuse(fault);
                Fed {
                    taken,
                    want: Want::Drain,
                }
            }
        }
    }

    /// Gives out the bytes that wait, from the first on, as many as fit.
    pub fn drain(&mut self, chunks: &Chunks, into: &mut [u8]) -> usize
        requires lies { SessionLiesIn chunks.now self.old }
        ensures limits { limits_in self.new ≡ limits_in self.old }
        ensures closed { self.new.closed ≡ self.old.closed }
        ensures count { result ≡ min (length into.old) (length (waiting_in self.old)) }
        ensures bytes { take result into.new ≡ take result (waiting_in self.old) }
        ensures rest { waiting_in self.new ≡ drop result (waiting_in self.old) }
        ensures session { (bytes : List ℕ) (messages : List Message) (text drained : List ℕ) → IsSession self.old bytes messages text drained
            → IsSession self.new bytes messages text (drained ++ take result (waiting_in self.old)) }
        ensures lies { SessionLiesIn chunks.now self.new }
    {
        self.unsent.give(chunks, into)
    }

    /// Whether bytes wait to be written.
    pub fn waits(&self) -> bool
        ensures some { result ≡ true → waiting_in self.now ≢ [] }
        ensures none { result ≡ false → waiting_in self.now ≡ [] }
    {
        !self.unsent.is_empty()
    }

    /// Whether only CR and LF bytes came since the last message's end.
    pub fn at_start(&self) -> bool
        ensures { (bytes : List ℕ) (messages : List Message) (text drained rest : List ℕ) → IsSession self.now bytes messages text drained
            → Spells (limits_in self.now) bytes messages rest → result ≡ list_all is_end_byte rest }
    {
        self.framer.at_start()
    }

    // Takes bytes up to the end of a message, and keeps its content.
    fn gather<D: Desk>(&mut self, desk: &mut D, piece: &[u8]) -> (usize, Event)
        requires { IsRunning self.old }
        ensures within { result.0 ≤ length piece.now }
        ensures limits { limits_in self.new ≡ limits_in self.old }
        ensures unsent { self.new.unsent ≡ self.old.unsent }
        ensures closed { self.new.closed ≡ self.old.closed }
        ensures stands { D.stands desk.new ≡ D.stands desk.old }
        ensures lists { AreUnmoved (D.seen desk.old) (D.mine desk.old) (D.seen desk.new) (D.mine desk.new) }
        ensures whole { result.1 ≡ Event.More → result.0 ≡ length piece.now }
        ensures gathered { (bytes : List ℕ) (messages : List Message) (text drained : List ℕ) → IsSession self.old bytes messages text drained
            → IsGatheredTo result.1 self.new (bytes ++ take result.0 piece.now) messages text drained }
        ensures lies { IfSome self.old.coming (ComingLiesIn (D.stands desk.old).chunks) → IfSome self.new.coming (ComingLiesIn (D.stands desk.old).chunks) }
    {
        let mut at = 0;
        'events: loop {
            let rest = &piece[at..];
            match self.framer.feed(rest) {
                Taken::More { taken } => return (at + taken, Event::More),
                Taken::Head { taken } => {
                    self.begin();
                    at += taken;
                    continue;
                }
                Taken::Body { taken, from, to } => {
                    self.keep(desk, &rest[from..to]);
                    at += taken;
                    continue;
                }
                Taken::End { taken } => return (at + taken, Event::End),
                Taken::Fault { taken, fault } => return (at + taken, Event::Fault(fault)),
            }
        }
    }

    // Begins to gather the message whose head has come.
    fn begin(&mut self)
        requires { IsInMessage self.old.framer }
        ensures others { self.new ≡ record self.old { coming = self.new.coming } }
        ensures coming { (bytes : List ℕ) (messages : List Message) (it : Current) → Stands self.old.framer bytes messages (Some it)
            → it.content ≡ [] → IsUnderWay (limits_of self.old.framer) messages (Some it) self.new.coming }
        ensures lies { (chunks : ChunksValue) → IfSome self.new.coming (ComingLiesIn chunks) }
    {
        let fields = HeadFields::read(&self.framer);
        let coming = Coming::new(
            self.alloc,
            &fields,
            self.framer.minor(),
            self.framer.keeps(),
            self.framer.limits().json,
            self.framer.content_left(),
        );
        self.coming = Some(coming);
    }

    // Keeps content of the message under way.
    fn keep<D: Desk>(&mut self, desk: &mut D, part: &[u8])
        ensures others { self.new ≡ record self.old { coming = self.new.coming } }
        ensures coming { (limits : Limits) (messages : List Message) (it : Current) → IsUnderWay limits messages (Some it) self.old.coming
            → IsUnderWay limits messages (Some (record it { content = it.content ++ part.now })) self.new.coming }
        ensures lies { IfSome self.old.coming (ComingLiesIn (D.stands desk.old).chunks) → IfSome self.new.coming (ComingLiesIn (D.stands desk.old).chunks) }
        ensures stands { D.stands desk.new ≡ D.stands desk.old }
        ensures lists { AreUnmoved (D.seen desk.old) (D.mine desk.old) (D.seen desk.new) (D.mine desk.new) }
    {
        if let Some(coming) = &mut self.coming {
            coming.body.take(desk, part);
        }
    }

    // Answers the message under way, which is whole.
    fn answer<C: Clock, D: Desk>(&mut self, desk: &mut D, chunks: &Chunks, clock: &mut C)
        requires chunks { (D.stands desk.old).chunks ≡ chunks.now }
        requires whole { (head : Head) × (content : List ℕ) × (keeps : Bool) × IsWholeIn (limits_in self.old) head content keeps self.old.coming }
        requires lies { SessionLiesIn chunks.now self.old }
        ensures framer { self.new.framer ≡ self.old.framer }
        ensures answered { (head : Head) (content : List ℕ) (keeps : Bool) → IsWholeIn (limits_in self.old) head content keeps self.old.coming
            → IsReplied (D.stands desk.old).caller
            (record { given = C.given clock.old; saw = D.seen desk.old; own = D.mine desk.old })
            (record { given = C.given clock.new; saw = D.seen desk.new; own = D.mine desk.new })
            self.new (whole head content keeps) }
        ensures lies { SessionLiesIn chunks.now self.new }
        ensures stands { D.stands desk.new ≡ D.stands desk.old }
    {
        let Some(coming) = self.coming.take() else {
            return;
        };
        self.closed = coming.form.closes();
        self.unsent = Unsent::new(respond(self.alloc, desk, chunks, clock, coming));
    }

    // Refuses a message by its framing.
    fn refuse(&mut self, fault: FrameFault)
        ensures framer { self.new.framer ≡ self.old.framer }
        ensures coming { self.new.coming ≡ None }
        ensures closed { self.new.closed ≡ true }
        ensures reply { waiting_in self.new ≡ fault_text fault }
        ensures lies { (chunks : ChunksValue) → SessionLiesIn chunks self.new }
    {
        self.coming = None;
        self.closed = true;
        self.unsent = Unsent::new(fault_reply(fault));
    }
}

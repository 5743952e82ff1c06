//! The parts of the message whose head was told, and whether it keeps the connection.
ghost use Rattle.std.specs.Prelude.{◌≡◌, ◌+◌, ◌&&◌, not, ◌==◌, ℕ, List, length, Option, Some, None, MatchOption};
ghost use Rattle.gcs_http_in.specs.Fields.{first_of, values_of};
ghost use Rattle.gcs_http_in.specs.Message.{Message, stays};
ghost use Rattle.gcs_http_in.specs.Progress.{Current};
ghost use Rattle.gcs_http_in.specs.Stands.{Stands, IsInMessage, limits_of};

use crate::framer::Framer;

impl Framer {
    /// The method of the message whose head was told.
    pub fn method(&self) -> &[u8]
        requires { IsInMessage self.now }
        ensures { (bytes : List ℕ) (messages : List Message) (it : Current)
            → Stands self.now bytes messages (Some it) → result.now ≡ it.head.method }
    {
        self.head.method()
    }

    /// Its request target, as it stands in the first line.
    pub fn target(&self) -> &[u8]
        requires { IsInMessage self.now }
        ensures { (bytes : List ℕ) (messages : List Message) (it : Current)
            → Stands self.now bytes messages (Some it) → result.now ≡ it.head.target }
    {
        self.head.target()
    }

    /// Its version's second number: 0 or 1.
    pub fn minor(&self) -> u8
        requires { IsInMessage self.now }
        ensures { (bytes : List ℕ) (messages : List Message) (it : Current)
            → Stands self.now bytes messages (Some it) → result ≡ it.head.minor }
    {
        self.head.minor()
    }

    /// The value of its first field of a name, which is compared without regard to case; blanks round the value are
    /// dropped.
    pub fn field(&self, name: &[u8]) -> Option<&[u8]>
        requires { IsInMessage self.now }
        ensures { (bytes : List ℕ) (messages : List Message) (it : Current)
            → Stands self.now bytes messages (Some it)
            → MatchOption result (first_of (values_of name.now it.head.fields) ≡ None)
            (λ v. first_of (values_of name.now it.head.fields) ≡ Some v.now) }
    {
        self.head.field(name)
    }

    /// Whether it keeps the connection: its version and `Connection` field let it stay (RFC 9112, 9.3), and it isn't
    /// the last message that the limits allow.
    pub fn keeps(&self) -> bool
        ensures { (bytes : List ℕ) (messages : List Message) (it : Current)
            → Stands self.now bytes messages (Some it)
            → result ≡ (stays it.head && not (1 + length messages == (limits_of self.now).requests)) }
    {
        self.keeps
    }
}

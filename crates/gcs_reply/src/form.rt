//! The form of a reply, as its message asks for it.
ghost use Rattle.std.specs.Prelude.{◌≡◌};
ghost use Rattle.gcs_reply.specs.Form.{ending_of, form_by, is_closing};

use gcs_http_out::Ending;

/// What a message says of the form of its reply.
#[derive(Clone, Copy, Debug, PartialEq, Eq)]
pub struct Form {
    pub ending: Ending,
    /// The reply to HEAD has its head alone.
    pub head_only: bool,
}

impl Form {
    /// The form of the reply to a message with this method, whose version has this second number, and which keeps the
    /// connection or doesn't.
    pub fn new(method: &[u8], minor: u8, keeps: bool) -> Form
        ensures { result ≡ form_by method.now minor keeps }
    {
        Form {
            ending: ending_of(minor, keeps),
            head_only: method == b"HEAD".as_slice(),
        }
    }

    /// Whether the reply says that the connection is closed.
    pub fn closes(&self) -> bool
        ensures { result ≡ is_closing self.now.ending }
    {
        match self.ending {
            Ending::Stays | Ending::KeepAlive => false,
            Ending::Closes => true,
        }
    }
}

fn ending_of(minor: u8, keeps: bool) -> Ending
    ensures { result ≡ ending_of minor keeps }
{
    if !keeps {
        Ending::Closes
    } else if minor == 1 {
        Ending::Stays
    } else {
        Ending::KeepAlive
    }
}

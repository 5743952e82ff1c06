//! The replies that are constants, so that they can be sent where no memory is left.
ghost use Rattle.std.specs.Prelude.{◌≡◌};
ghost use Rattle.gcs_http_out.specs.Fixed.{fixed_text};

use crate::head::Ending;
use crate::reply::{Fixed, FixedText};

// The reply with this status, length of the body, message and reason, in the ending that is asked for, whole
// or as its head alone.
macro_rules! reply {
    ($of:ident, $code:literal, $phrase:literal, $length:literal, $message:literal, $word:literal) => {
        match ($of.ending, $of.head_only) {
            (Ending::Stays, false) => reply!(@whole $code, $phrase, $length, "", $message, $word),
            (Ending::Stays, true) => reply!(@head $code, $phrase, $length, ""),
            (Ending::KeepAlive, false) => {
                reply!(@whole $code, $phrase, $length, "Connection: keep-alive\r\n", $message, $word)
            }
            (Ending::KeepAlive, true) => {
                reply!(@head $code, $phrase, $length, "Connection: keep-alive\r\n")
            }
            (Ending::Closes, false) => {
                reply!(@whole $code, $phrase, $length, "Connection: close\r\n", $message, $word)
            }
            (Ending::Closes, true) => {
                reply!(@head $code, $phrase, $length, "Connection: close\r\n")
            }
        }
    };
    (@head $code:literal, $phrase:literal, $length:literal, $ending:literal) => {
        concat!(
            "HTTP/1.1 ", $code, " ", $phrase,
            "\r\nContent-Type: application/json; charset=UTF-8\r\nContent-Length: ", $length,
            "\r\n", $ending, "\r\n"
        )
        .as_bytes()
    };
    (@whole $code:literal, $phrase:literal, $length:literal, $ending:literal, $message:literal, $word:literal) => {
        concat!(
            "HTTP/1.1 ", $code, " ", $phrase,
            "\r\nContent-Type: application/json; charset=UTF-8\r\nContent-Length: ", $length,
            "\r\n", $ending, "\r\n",
            "{\"error\":{\"code\":", $code,
            ",\"errors\":[{\"domain\":\"global\",\"message\":\"", $message,
            "\",\"reason\":\"", $word, "\"}],\"message\":\"", $message, "\"}}"
        )
        .as_bytes()
    };
}

// The reply to a message whose framing has this fault, but for the one that is too long.
macro_rules! bad_framing {
    ($of:ident, $length:literal, $fault:literal) => {
        reply!($of, "400", "Bad Request", $length, $fault, "badFraming")
    };
}

/// The bytes of a constant reply: its head, whose `Content-Length` is that of the body, and the body unless
/// the head alone is asked for.
///
/// The body is JSON of the form of Google's Cloud Storage errors ("HTTP status and error codes for JSON").
/// A message whose framing is refused gets 400, or 413 where its body is too long, with the fault's name as
/// the message; want of memory gets 503.
#[tactic(auto, unfolding(crate::proofs::OnLiterals::decimals_on_literals, crate::specs::Fixed::fixed_text, crate::specs::Head::head_text))]
pub fn fixed(reply: Fixed) -> &'static [u8]
    ensures { result.now ≡ fixed_text reply }
{
    match reply.what {
        FixedText::HeadTooLong => bad_framing!(reply, "123", "HeadTooLong"),
        FixedText::TooManyFields => bad_framing!(reply, "127", "TooManyFields"),
        FixedText::BadHead => bad_framing!(reply, "115", "BadHead"),
        FixedText::BadCoding => bad_framing!(reply, "119", "BadCoding"),
        FixedText::BothLengths => bad_framing!(reply, "123", "BothLengths"),
        FixedText::BadLength => bad_framing!(reply, "119", "BadLength"),
        FixedText::BodyTooLong => reply!(
            reply,
            "413",
            "Payload Too Large",
            "123",
            "BodyTooLong",
            "badFraming"
        ),
        FixedText::BadChunk => bad_framing!(reply, "117", "BadChunk"),
        FixedText::WantOfMemory => reply!(
            reply,
            "503",
            "Service Unavailable",
            "131",
            "want of memory",
            "wantOfMemory"
        ),
        FixedText::WantOfMemoryDone => reply!(
            reply,
            "503",
            "Service Unavailable",
            "161",
            "want of memory after a step",
            "wantOfMemoryDone"
        ),
    }
}

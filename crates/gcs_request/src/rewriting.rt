//! The token of a rewrite, as the head of its call is tested for it.
ghost use Rattle.std.specs.Prelude.{◌≡◌, if◌then◌else◌, IfOk, Some, None};
ghost use Rattle.gcs_route.specs.OfCall.{NamesObject};
ghost use Rattle.gcs_request.specs.Rewriting.{goes_on, is_from, is_generation, is_to, refused_token};

use gcs_meaning::{Key, Reason, RewriteToken};
use gcs_rewrite::{RewriteFault, read_rewrite};
use gcs_route::Call;
use std::alloc::{AllocError, Global};

/// The refusal of a rewrite's token: where it is given, it must be that of a rewrite with the names of the path, and with the
/// source's generation, if that is given too. `Err`: no memory.
pub fn refused_token(alloc: Global, call: &Call) -> Result<Option<Reason>, AllocError>
    requires { NamesObject call.now }
    ensures { IfOk result (λ reason. reason ≡ refused_token call.now call.now.rewrite_token) }
{
    let Some(text) = &call.rewrite_token else {
        return Ok(None);
    };
    match read_rewrite(alloc, text.as_bytes()) {
        Ok(token) => Ok(refused_other(call, &token)),
        Err(RewriteFault::Bad) => Ok(Some(BAD_TOKEN)),
        Err(RewriteFault::NoMemory) => Err(AllocError),
    }
}

const BAD_TOKEN: Reason = Reason::Invalid {
    key: Key::RewriteToken,
};

// The refusal of the token of another rewrite.
fn refused_other(call: &Call, token: &RewriteToken) -> Option<Reason>
    requires { NamesObject call.now }
    ensures { result ≡ (if goes_on call.now (Some token.now) then None else Some (Reason.Invalid Key.RewriteToken)) }
{
    if is_from(call, token) && is_to(call, token) {
        None
    } else {
        Some(BAD_TOKEN)
    }
}

// Whether the rewrite is from the source of the call.
fn is_from(call: &Call, token: &RewriteToken) -> bool
    requires { NamesObject call.now }
    ensures { result ≡ is_from call.now token.now }
{
    token.from_bucket.as_bytes() == call.bucket().as_bytes()
        && token.from_name.as_bytes() == call.object().as_bytes()
        && is_generation(call.source_generation, token.generation)
}

// Whether the generation is the one that is asked for, if one is.
fn is_generation(asked: Option<u64>, generation: u64) -> bool
    ensures { result ≡ is_generation asked generation }
{
    match asked {
        Some(asked) => asked == generation,
        None => true,
    }
}

// Whether the rewrite is to the destination of the call.
fn is_to(call: &Call, token: &RewriteToken) -> bool
    requires { NamesObject call.now }
    ensures { result ≡ is_to call.now token.now }
{
    token.to_bucket.as_bytes() == call.last_bucket().as_bytes()
        && token.to_name.as_bytes() == call.last_object().as_bytes()
}

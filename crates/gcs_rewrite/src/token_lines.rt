//! The lines of a token.
ghost use Rattle.std.specs.Prelude.{◌≡◌, map, length, take, drop, ◌+◌, ◌<◌, IfOk};
ghost use Rattle.gcs_rewrite.specs.Tokens.{first_line, lines_of};

use std::alloc::{AllocError, Global};

/// The lines between the LF bytes of a text. `Err`: no memory.
pub fn lines_of<'a>(alloc: Global, text: &'a [u8]) -> Result<Vec<&'a [u8]>, AllocError>
    ensures { IfOk result (λ lines. map (λ line. line.now) lines.items ≡ lines_of text.now) }
{
    let mut lines = Vec::new(alloc);
    let mut rest = text;
    let mut at = first_length(rest);
    while at < rest.len() {
        let (line, others) = around(rest, at);
        lines.push(line)?;
        rest = others;
        at = first_length(rest);
    }
    lines.push(rest)?;
    Ok(lines)
}

// What stands in front of that place and behind it.
fn around(text: &[u8], at: usize) -> (&[u8], &[u8])
    requires { at < length text.now }
    ensures { (result.0.now ≡ take at text.now) × (result.1.now ≡ drop (at + 1) text.now) }
{
    (&text[..at], &text[at + 1..])
}

// How many bytes the first line has.
fn first_length(text: &[u8]) -> usize
    ensures { result ≡ length (first_line text.now) }
{
    text.iter().take_while(|byte| **byte != b'\n').count()
}

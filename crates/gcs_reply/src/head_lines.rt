//! The lines of a reply's head, where they may be absent or show a number.
ghost use Rattle.std.specs.Prelude.{◌≡◌, ◌++◌, OnOk, Some, decimal};
ghost use Rattle.gcs_reply.specs.Replies.{line_text};

use gcs_http_out::push_field;
use gcs_meaning::Text;
use std::alloc::AllocError;

/// Writes a field behind what `head` holds, where its value is there. `Err`: no memory.
pub fn push_text_if(head: &mut Vec<u8>, name: &str, value: &Option<Text>) -> Result<(), AllocError>
    ensures { OnOk result (head.new.items ≡ head.old.items ++ line_text name.now value.now) }
{
    if let Some(value) = value {
        push_field(head, name, value.as_str())?;
    }
    Ok(())
}

/// Writes a field whose value is a number behind what `head` holds. `Err`: no memory.
pub fn push_number(head: &mut Vec<u8>, name: &str, value: u64) -> Result<(), AllocError>
    ensures { OnOk result (head.new.items ≡ head.old.items ++ line_text name.now (Some (decimal value))) }
{
    let mut digits = itoa::Buffer::new();
    push_field(head, name, digits.format(value))?;
    Ok(())
}

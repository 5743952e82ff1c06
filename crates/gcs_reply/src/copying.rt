//! Bytes that are read from a place on.
ghost use Rattle.std.specs.Prelude.{◌≡◌, ◌++◌, ◌-◌, length, min, take, drop};

/// Writes the bytes from `at` on, as many as fit and are there, and tells how many.
pub fn copy_from(bytes: &[u8], at: u64, into: &mut [u8]) -> usize
    ensures count { result ≡ min (length into.old) (length bytes.now - at) }
    ensures bytes { into.new ≡ take result (drop at bytes.now) ++ drop result into.old }
{
    let rest = &bytes[at.min(bytes.len() as u64) as usize..];
    let count = rest.len().min(into.len());
    into[..count].copy_from_slice(&rest[..count]);
    count
}

/// The same of two pieces, as one.
pub fn copy_both(head: &[u8], body: &[u8], at: u64, into: &mut [u8]) -> usize
    ensures count { result ≡ min (length into.old) (length (head.now ++ body.now) - at) }
    ensures bytes { into.new ≡ take result (drop at (head.now ++ body.now)) ++ drop result into.old }
{
    let count = copy_from(head, at, into);
    let past = at.saturating_sub(head.len() as u64);
    count + copy_from(body, past, &mut into[count..])
}

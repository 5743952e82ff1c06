//! Words and blanks.
ghost use Rattle.std.specs.Prelude.{◌≡◌};
ghost use Rattle.std.specs.Str.{str_eq_ignore_ascii_case};
ghost use Rattle.gcs_multipart.specs.Words.{is_blank, trim_back, trim_front};

/// Whether two texts are the same without regard to case.
pub(crate) fn is_same_word(a: &[u8], b: &[u8]) -> bool
    ensures { result ≡ str_eq_ignore_ascii_case a.now b.now }
{
    a.eq_ignore_ascii_case(b)
}

/// Whether the byte is a space or a tab.
pub(crate) fn is_blank(byte: u8) -> bool
    ensures { result ≡ is_blank byte }
{
    byte == b' ' || byte == b'\t'
}

/// The text without the blanks round it.
pub(crate) fn trim(text: &[u8]) -> &[u8]
    ensures { result.now ≡ trim_back (trim_front text.now) }
{
    trim_back(trim_front(text))
}

fn trim_front(text: &[u8]) -> &[u8]
    ensures { result.now ≡ trim_front text.now }
{
    for (at, byte) in text.iter().enumerate() {
        if !is_blank(*byte) {
            return &text[at..];
        }
    }
    b""
}

fn trim_back(text: &[u8]) -> &[u8]
    ensures { result.now ≡ trim_back text.now }
{
    let mut end = 0;
    for (at, byte) in text.iter().enumerate() {
        if !is_blank(*byte) {
            end = at + 1;
        }
    }
    &text[..end]
}

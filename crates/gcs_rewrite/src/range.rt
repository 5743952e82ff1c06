//! A range of bytes that a read asks for (RFC 9110, 14.1.2).
ghost use Rattle.std.specs.Prelude.{◌≡◌};
ghost use Rattle.gcs_rewrite.specs.Ranges.{part_in};

/// One range of bytes.
#[derive(Clone, Copy, Debug, PartialEq, Eq)]
pub enum Range {
    /// From the first of these places up to and with the last, which isn't before it.
    Between(u64, u64),
    /// From this place on.
    From(u64),
    /// So many bytes at the end.
    Last(u64),
}

impl Range {
    /// The first and the last byte of the part that is asked for. `None`: a content of this size has no such part.
    #[tactic(auto, unfolding(crate::specs::Ranges::part_in))]
    pub fn part_in(self, size: u64) -> Option<(u64, u64)>
        ensures { result ≡ part_in self size }
    {
        match self {
            Range::Between(first, last) if first < size => Some((first, last.min(size - 1))),
            Range::From(first) if first < size => Some((first, size - 1)),
            Range::Last(count) if count > 0 && size > 0 => {
                Some((size - count.min(size), size - 1))
            }
            _ => None,
        }
    }
}

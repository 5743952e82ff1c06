//! Laws of readings: a text has one, a framer stands for it, and the limits bound it.
ghost use Rattle.std.specs.Prelude.{◌≡◌, ℕ, ◌<◌, ◌≤◌, ◌^◌, ◌++◌, [], ◌∷◌, List, length, Option, Some, None};
ghost use Rattle.gcs_http_in.specs.Message.{AllKeep, Message, Spells, whole};
ghost use Rattle.gcs_http_in.specs.Bounds.{most_bytes};
ghost use Rattle.gcs_http_in.specs.Progress.{Current, ReadsSoFar};
ghost use Rattle.gcs_http_in.specs.Stands.{Stands, IsWaiting, limits_of, will_keep};
ghost use Rattle.gcs_http_in.specs.Usual.{IsAllowed};
ghost use Rattle.gcs_http_in.specs.declared.limits.Limits.{Limits};

use crate::framer::Framer;

/// A text has at most one reading: its messages and what is left are determined by its bytes.
pub fn law_one_reading()
    ensures { (limits : Limits) (bytes : List ℕ) (messages others : List Message) (rest left : List ℕ)
        → Spells limits bytes messages rest → Spells limits bytes others left
        → (messages ≡ others) × (rest ≡ left) }
{}

/// What a framer stands for is the reading of the bytes that it took. Where the end of a message waits to be told, the
/// reading has that message besides.
pub fn law_reads(framer: &Framer)
    // Heads and content are told at once.
    ensures so_far { (bytes : List ℕ) (messages : List Message) (current : Option Current)
        → Stands framer.now bytes messages current
        → ReadsSoFar (limits_of framer.now) bytes messages current }

    // No end waits to be told.
    ensures reads { (bytes : List ℕ) (messages : List Message) (current : Option Current)
        → Stands framer.now bytes messages current
        → (IsWaiting framer.now → ⊥) → (rest : List ℕ) × Spells (limits_of framer.now) bytes messages rest }
    // The end of the current message does.
    ensures due { (bytes : List ℕ) (messages : List Message) (current : Option Current)
        → Stands framer.now bytes messages current
        → IsWaiting framer.now → (it : Current) × (current ≡ Some it)
        × Spells (limits_of framer.now) bytes (messages ++ whole it.head it.content (will_keep framer.now) ∷ []) [] }
{}

/// A connection has at most so many bytes and messages, as its limits say, so a loop over the calls of a framer ends.
pub fn law_bounded(framer: &Framer)
    // After a message that closes the connection a framer takes any bytes, and reads none.
    ensures bytes { (bytes : List ℕ) (messages : List Message) (current : Option Current)
        → Stands framer.now bytes messages current
        → AllKeep messages → length bytes ≤ most_bytes (limits_of framer.now) }
    ensures messages { (bytes : List ℕ) (messages : List Message) (current : Option Current)
        → Stands framer.now bytes messages current
        → IsAllowed (limits_of framer.now) → length messages ≤ (limits_of framer.now).requests }
    // So a `u64` counts them.
    ensures small { IsAllowed (limits_of framer.now) → most_bytes (limits_of framer.now) < 2 ^ 63 }
{}

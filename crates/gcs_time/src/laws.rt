//! What holds of texts and moments together.
ghost use Rattle.std.specs.Prelude.{◌≡◌, ◌↔◌, ◌*◌, ◌/◌, min, ℕ, List, Some};
ghost use Rattle.gcs_time.specs.Time.{IsTextOf, IsTimeOf, last_moment, time_of, time_text_of};

/// No text names two moments, a moment has one text, and that text names it, cut to milliseconds.
pub fn law_round_trip()
    ensures one { (text : List ℕ) (m n : ℕ) → IsTimeOf text m → IsTimeOf text n → m ≡ n }
    ensures text { (moment : ℕ) (a b : List ℕ) → IsTextOf moment a → IsTextOf moment b → a ≡ b }
    ensures walk { (moment : ℕ) (text : List ℕ) → IsTextOf moment text → text ≡ time_text_of moment }
    ensures back { (moment : ℕ) (text : List ℕ) → IsTextOf moment text → IsTimeOf text (min moment last_moment / 1000 * 1000) }
{}

/// The function from a text to its moment gives a moment exactly where the text is one of it.
pub fn law_time_of()
    ensures { (text : List ℕ) (moment : ℕ) → (time_of text ≡ Some moment) ↔ IsTimeOf text moment }
{}

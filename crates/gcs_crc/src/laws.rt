//! What holds of digests and texts together.
ghost use Rattle.std.specs.Prelude.{◌≡◌, ◌↔◌, ℕ, List, Some};
ghost use Rattle.base64.specs.GeneralPurpose.{IsBytes};
ghost use Rattle.gcs_crc.specs.Text.{crc_of_text, md5_of_text, IsCrcText, IsMd5Text};

/// A text is read as a digest exactly where it is that digest's own: no second text of it is read.
pub fn law_texts()
    ensures crc { (text : List ℕ) (value : ℕ) → IsBytes text → (crc_of_text text ≡ Some value) ↔ IsCrcText text value }
    ensures md5 { (text value : List ℕ) → IsBytes text → (md5_of_text text ≡ Some value) ↔ IsMd5Text text value }
{}

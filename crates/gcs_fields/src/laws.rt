//! A law of masks: the contract of a function that does nothing.
ghost use Rattle.std.specs.Prelude.{◌≡◌};
ghost use Rattle.gcs_fields.specs.Tree.{Mask, IsMask, print};

/// A text is that of one mask: two masks within the limits with the same text are the same tree.
pub fn law_one_mask()
    ensures { (a b : Mask) → IsMask a → IsMask b → print a ≡ print b → a ≡ b }
{}

//! Rows of the definitions that were worked by hand, as contracts.

ghost use Rattle.std.specs.Prelude.{◌≡◌, [], ◌∷◌, ◌++◌, codes, decimal};
ghost use Rattle.gm_image.specs.declared.rules.ImageRule.TheVariants.{I4};
ghost use Rattle.gm_exec.specs.declared.flaws.Flaw.TheVariants as flaw;
ghost use Rattle.gm_exec.specs.Flaws.{flaw_text};

/// What the definitions say of some flaws and of a small image. It does nothing when it is called.
pub fn rows_are_worked()
    ensures too_long { flaw_text flaw.TooLong ≡ codes "image TooLong" ++ 10 ∷ [] }
    ensures bad_text { flaw_text (flaw.BadText 3) ≡ codes "image BadText at line " ++ decimal 3 ++ 10 ∷ [] }
    ensures broken { flaw_text (flaw.Broken I4 18) ≡ codes "image I4 at line " ++ decimal 18 ++ 10 ∷ [] }
{}

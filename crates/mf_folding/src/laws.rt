//! What holds of names that are compared. Each function does nothing: its contract is the law that the sentence above
//! it tells.

ghost use Rattle.std.specs.Prelude.{◌≡◌, ◌++◌, ◌∷◌, [], codes};
ghost use Rattle.mf_folding.specs.Folding.{folded};

/// Names that a second program folded: Élodie, with É in one character and in two; AMINA; Straße; Nguyễn; and İbrahim.
/// Of Łukasz the letter with its stroke stays, since Unicode doesn't decompose it.
pub fn worked_names()
    ensures one { folded (195 ∷ 137 ∷ codes "lodie") ≡ codes "elodie" }
    ensures two { folded (69 ∷ 204 ∷ 129 ∷ codes "lodie") ≡ codes "elodie" }
    ensures capitals { folded (codes "AMINA") ≡ codes "amina" }
    ensures sharp { folded (codes "Stra" ++ 195 ∷ 159 ∷ 101 ∷ []) ≡ codes "strasse" }
    ensures both { folded (codes "Nguy" ++ 225 ∷ 187 ∷ 133 ∷ 110 ∷ []) ≡ codes "nguyen" }
    ensures dotted { folded (196 ∷ 176 ∷ codes "brahim") ≡ codes "ibrahim" }
    ensures stroke { folded (197 ∷ 129 ∷ codes "ukasz") ≡ 322 ∷ codes "ukasz" }
{}

//! Laws of commits that a journal notes. Each function does nothing: its contract is the law.

ghost use Rattle.std.specs.Prelude.{◌≡◌, ◌⊎◌, ◌<◌, ◌^◌, ℕ, ◌∷◌, ◌++◌, [], List, Option, codes, negsuc, pos, replicate};
ghost use Rattle.mf_model.specs.Institution.{Institution};
ghost use Rattle.mf_journal.specs.Chain.{IsCollision};
ghost use Rattle.mf_journal.specs.declared.following.Head.{Head};
ghost use Rattle.mf_store_schema.specs.declared.writes.StoreWrite.{StoreWrite};
ghost use Rattle.mf_store_commits.specs.Becoming.{Becomes, SpareMeta};
ghost use Rattle.mf_store_noted.specs.Becoming.{BecomesKept};
ghost use Rattle.mf_store_noted.specs.Fitting.{FitsTables};
ghost use Rattle.mf_store_noted.specs.Upgrading.{table_text, upgrading, upgrading_text};
ghost use Rattle.mf_store_schema.specs.Rows.{Lists, empty_lists};
ghost use Rattle.sqlite.specs.declared.types.Value.TheVariants.{Int, Null, Text};

/// Writes that make one institution's rows of another's, and leave the row of meta, make them beside a journal too,
/// wherever it begins.
pub fn writes_are_made_beside_a_journal()
    ensures { (journal : Option Head) (writes : List StoreWrite) (i j : Institution) → Becomes writes i j
        → SpareMeta writes → j.catalogue.day ≡ i.catalogue.day → j.journal ≡ i.journal
        → BecomesKept journal writes i j }
{}

/// The text of a table of two rows, and that of an institution with no rows at all on 1 January 2026, byte by byte.
pub fn worked_upgrading()
    ensures table { table_text ((Int (pos 1) ∷ Null ∷ Text (codes ".1") ∷ []) ∷ (Int (negsuc 1) ∷ []) ∷ []) ≡ 0 ∷ 0
        ∷ 0 ∷ 0 ∷ 0 ∷ 0 ∷ 0 ∷ 2 ∷ 1 ∷ 0 ∷ 0 ∷ 0 ∷ 0 ∷ 0 ∷ 0 ∷ 0 ∷ 1 ∷ 0 ∷ 2 ∷ 0 ∷ 0 ∷ 0 ∷ 0 ∷ 0 ∷ 0 ∷ 0 ∷ 2 ∷ 46 ∷ 49
        ∷ 1 ∷ 255 ∷ 255 ∷ 255 ∷ 255 ∷ 255 ∷ 255 ∷ 255 ∷ 254 ∷ [] }
    ensures whole { upgrading_text 9497 empty_lists ≡ codes "microloan upgraded" ++ 0 ∷ 0 ∷ 0 ∷ 0 ∷ 0 ∷ 0 ∷ 37 ∷ 25
        ∷ replicate 88 0 }
{}

/// The text of an upgraded institution determines its business day and all its rows.
pub fn one_upgrading_text_one_institution()
    ensures { (day today : ℕ) (a b : Lists) → day < 2 ^ 64 → today < 2 ^ 64 → FitsTables a → FitsTables b
        → a.journal ≡ b.journal → upgrading_text day a ≡ upgrading_text today b → (day ≡ today) × (a ≡ b) }
{}

/// Journals of upgraded institutions that begin at one chain began on one day and over the same rows, or two different
/// texts with one SHA-256 are found.
pub fn one_upgrading()
    ensures { (day today : ℕ) (a b : Lists) → day < 2 ^ 64 → today < 2 ^ 64 → FitsTables a → FitsTables b
        → a.journal ≡ b.journal → (upgrading day a).chain ≡ (upgrading today b).chain
        → ((day ≡ today) × (a ≡ b)) ⊎ ((s : List ℕ) × (t : List ℕ) × IsCollision s t) }
{}

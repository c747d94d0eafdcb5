//! Laws of the tables. Each function does nothing: its contract is the law.

ghost use Rattle.std.specs.Prelude.{◌≡◌};
ghost use Rattle.mf_model.specs.Institution.{Institution};
ghost use Rattle.mf_model.specs.Sound.{IsSound};
ghost use Rattle.mf_store_values.specs.Flat.{tables_of};

/// The tables determine the institution but for its journal: two sound ones that have the same rows and the same
/// journal are one and the same.
pub fn one_institution()
    ensures { (i j : Institution) → IsSound i → IsSound j → i.journal ≡ j.journal
        → tables_of i ≡ tables_of j → i ≡ j }
{
    mf_base::laws::texts_of_days();
}

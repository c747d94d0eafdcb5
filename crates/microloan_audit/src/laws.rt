//! Laws of the texts. Each function does nothing: its contract is the law that the sentence above it tells.

ghost use Rattle.std.specs.Prelude.{◌↔◌, codes};
ghost use Rattle.mf_store_verdict.specs.Verdict.{HoldsUp};
ghost use Rattle.mf_store_verdict.specs.declared.verdict.Verdict.{Verdict};
ghost use Rattle.microloan_audit.specs.Reading.{BeginsWith};
ghost use Rattle.microloan_audit.specs.Text.{verdict_text};

/// What is printed of a file begins with `schema` if and only if the file holds up: it holds a sound institution, and
/// its journal leads there, where it is played.
pub fn sound_is_read_off_the_first_word()
    ensures { (verdict : Verdict) → BeginsWith (codes "schema ") (verdict_text verdict) ↔ HoldsUp verdict }
{}

//! Names without their case and accents, so that they can be compared.
#![tactic(auto)]

ghost use Rattle.std.specs.Prelude.{◌≡◌, ◌++◌, ◌∷◌, [], cond, chars, encode_utf8_all, string_bytes, IfOk, OnOk};
ghost use Rattle.caseless.specs.Caseless.{canonical_key};
ghost use Rattle.mf_folding.specs.Folding.{folded, is_no_accent, without_accents};

pub mod laws;

use caseless::default_case_fold_str;
use std::alloc::{AllocError, Global};
use unicode_normalization::char::canonical_combining_class;
use unicode_normalization::to_nfd;

/// Whether a character is no accent: it doesn't combine with the one before it.
fn is_no_accent(c: char) -> bool
    ensures { result ≡ is_no_accent c }
{
    canonical_combining_class(c) == 0
}

/// The characters of a text.
fn chars_of(alloc: Global, text: &str) -> Result<Vec<char>, AllocError>
    ensures { IfOk result (λ all. all.items ≡ chars text.now) }
{
    text.chars().collect(alloc)
}

/// Adds a character that is no accent at the end.
fn put(kept: &mut Vec<char>, c: char) -> Result<(), AllocError>
    ensures { OnOk result (kept.new.items ≡ kept.old.items ++ cond (is_no_accent c) (c ∷ []) []) }
{
    if is_no_accent(c) {
        kept.push(c)?;
    }
    Ok(())
}

/// Those of some characters that are no accents.
fn without_accents(alloc: Global, all: &[char]) -> Result<Vec<char>, AllocError>
    ensures { IfOk result (λ kept. kept.items ≡ without_accents all.now) }
{
    let mut kept = Vec::with_capacity(alloc, all.len())?;
    for c in all {
        put(&mut kept, *c)?;
    }
    Ok(kept)
}

/// The characters of a text, decomposed, without case, decomposed again: texts that differ in case alone, or in how an
/// accent is spelled, have the same.
fn caseless_text(alloc: Global, text: &str) -> Result<String, AllocError>
    ensures { IfOk result (λ key. string_bytes key ≡ encode_utf8_all (canonical_key (chars text.now))) }
{
    let decomposed = to_nfd(alloc, text)?;
    let folded = default_case_fold_str(alloc, decomposed.as_str())?;
    to_nfd(alloc, folded.as_str())
}

/// The characters of a text without case and accents.
pub fn folded(alloc: Global, text: &str) -> Result<Vec<char>, AllocError>
    ensures { IfOk result (λ kept. kept.items ≡ folded text.now) }
{
    let key = caseless_text(alloc, text)?;
    let all = chars_of(alloc, key.as_str())?;
    without_accents(alloc, all.as_slice())
}

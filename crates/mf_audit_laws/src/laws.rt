//! What it means that nothing is found. Each function does nothing: its contract is the law that the sentence above it
//! tells.

ghost use Rattle.std.specs.Prelude.{◌≡◌, ℕ, List, []};
ghost use Rattle.std.specs.List.{Contains};
ghost use Rattle.mf_store_schema.specs.Rows.{Lists};
ghost use Rattle.mf_store_schema.specs.Versions.{number_of};
ghost use Rattle.mf_store_schema.specs.declared.versions.Version.{Version};
ghost use Rattle.mf_store_sound.specs.Held.{DoRise};
ghost use Rattle.mf_store_sound.specs.Schemas.{lists_at};
ghost use Rattle.mf_store_sound.specs.Sound.{AreOfSoundAt, AreUnder};
ghost use Rattle.mf_store_audit.specs.Findings.{AreFindings, AreOfAccounts, IsToday, found_in_rows};
ghost use Rattle.mf_store_audit.specs.Places.{AreInTurn};
ghost use Rattle.mf_store_audit.specs.declared.finding.Finding.{Finding};
ghost use Rattle.mf_store_audit.specs.declared.finding.Finding.TheVariants as finding;

use mf_office::laws as offices;

/// Tables in whose rows nothing is found can't but be those of a sound institution, the rows of accounts aside.
pub fn rows_that_keep_all_conditions_are_sound()
    ensures { (v : Version) (today : ℕ) (lists : Lists) → IsToday (number_of v) lists.meta today →
        AreInTurn (found_in_rows v today lists) [] → ¬ ¬ AreUnder (number_of v) lists }
{
    offices::tree_by_its_keys();
}

/// Where nothing is found of the rows of accounts either, all rows can't but be those of a sound institution: rows that
/// rise by their keys, in tables that the version has.
pub fn accounts_that_differ_in_nothing_are_sound()
    ensures { (v : Version) (lists : Lists) → DoRise lists → lists_at v lists ≡ lists →
        AreUnder (number_of v) lists → AreOfAccounts v lists [] → ¬ ¬ AreOfSoundAt v lists }
{}

/// What is found of rows that no sound institution has always names a row, or a table that lacks one: it is never that
/// no row by itself breaks a condition.
pub fn a_broken_file_names_its_rows()
    ensures { (v : Version) (lists : Lists) (found : List Finding) → DoRise lists → lists_at v lists ≡ lists →
        ¬ AreOfSoundAt v lists → AreFindings v lists found → ¬ Contains found finding.Unsound }
{
    offices::tree_by_its_keys();
}

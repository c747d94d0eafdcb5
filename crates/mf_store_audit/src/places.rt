//! The rows of a table by their places: which break a condition, and the first condition that each breaks.

ghost use Rattle.std.specs.Prelude.{◌≡◌, ◌≤◌, ◌++◌, ℕ, List, Option, true, false, length, option_copied};
ghost use Rattle.std.specs.Prelude.{IsTrue, IfSome, IfOk, IfErr, OnOk};
ghost use Rattle.mf_base.specs.declared.fault.Fault.TheVariants.{F20};
ghost use Rattle.mf_store_audit.specs.Places.{AreFoundIn, AreOfRows, IsFirst, IsOneOf, row_before};
ghost use Rattle.mf_store_audit.specs.declared.finding.Finding.{Finding};

use crate::finding::Finding;
use mf_base::Fault;

/// What may be wrong with a row of a table.
pub(crate) trait Flaws: Copy + 'static {
    /// All that may be, in the order in which it is asked.
    ghost all: { List Self };

    /// All that may be, in the order in which it is asked.
    fn all() -> &'static [Self]
        ensures listed { result.now ≡ all }
        ensures every { (flaw : Self) → IsOneOf result.now flaw };

    /// What is told of a row at a place that breaks the condition.
    ghost finding: { ℕ → Self → Finding };

    /// What is told of a row at a place that breaks the condition.
    fn finding(self, place: usize) -> Finding
        ensures { result ≡ finding place self };
}

/// A row of a table, with the conditions that it may break by what it is held against.
pub(crate) trait Row<Setting>: Sized {
    /// What may be wrong with the row.
    type Flaw: Flaws;

    /// What rows are held against is such as the conditions need it.
    ghost IsSetting: { Setting → Type 0 } = { λ setting. Unit {0} };

    /// The rows that rows are held against rise by their keys.
    ghost IsInOrder: { Setting → Type 0 } = { λ setting. Unit {0} };

    /// The row, after the one before it, breaks this condition.
    ghost Breaks: { Setting → Self.Flaw → Option Self → Self → Type 0 };

    /// Whether the row, after the one before it, breaks this condition. The error is F20, out of memory.
    fn breaks(
        &self,
        setting: Setting,
        before: Option<&Self>,
        flaw: Self::Flaw,
    ) -> Result<bool, Fault>
        requires { IsSetting setting }
        ensures found { IfOk result (λ yes. IsTrue yes → Breaks setting flaw (option_copied before.entry) self.now) }
        ensures every { IfOk result (λ yes. IsInOrder setting →
            Breaks setting flaw (option_copied before.entry) self.now → IsTrue yes) }
        ensures gives_up { IfErr result (λ fault. fault ≡ F20) };
}

/// The row before a place.
pub(crate) fn row_before<R>(rows: &[R], place: usize) -> Option<&R>
    ensures { option_copied result ≡ row_before rows.now place }
{
    if place == 0 {
        return None;
    }
    rows.get(place - 1)
}

/// The first condition that a row breaks, after the one before it. The error is F20, out of memory.
fn first_flaw<Setting: Copy, R: Row<Setting>>(
    setting: Setting,
    before: Option<&R>,
    row: &R,
) -> Result<Option<R::Flaw>, Fault>
    requires { R.IsSetting setting }
    ensures found { IfOk result (λ found. IfSome found
        (λ flaw. R.Breaks setting flaw (option_copied before.entry) row.now)) }
    ensures first { IfOk result (λ found. R.IsInOrder setting
        → IsFirst (λ flaw. R.Breaks setting flaw (option_copied before.entry) row.now) R.Flaw.all found) }
    ensures gives_up { IfErr result (λ fault. fault ≡ F20) }
{
    for flaw in R::Flaw::all() {
        if row.breaks(setting, before, *flaw)? {
            return Ok(Some(*flaw));
        }
    }
    Ok(None)
}

/// Adds what is found of the rows of a table: of each that breaks a condition, in order, the first condition that it
/// breaks. Where not all is wanted, it adds that of the first such row, and nothing where something was found before.
/// The error is F20, out of memory.
pub(crate) fn add_found<Setting: Copy, R: Row<Setting>>(
    setting: Setting,
    rows: &[R],
    all: bool,
    findings: &mut Vec<Finding>,
) -> Result<(), Fault>
    requires { R.IsSetting setting }
    ensures added { OnOk result ((found : List Finding) × (findings.new.items ≡ findings.old.items ++ found)
        × AreOfRows (R.Breaks setting) R.Flaw.finding rows.now found
        × (all ≡ true → R.IsInOrder setting → AreFoundIn R.Flaw.all (R.Breaks setting) R.Flaw.finding rows.now found)) }
    ensures one { OnOk result (all ≡ false → length findings.old.items ≤ 1 → length findings.new.items ≤ 1) }
    ensures gives_up { IfErr result (λ fault. fault ≡ F20) }
{
    if !all && !findings.is_empty() {
        return Ok(());
    }
    for place in 0..rows.len() {
        if let Some(flaw) = first_flaw(setting, row_before(rows, place), &rows[place])? {
            findings.push(flaw.finding(place))?;
            if !all {
                return Ok(());
            }
        }
    }
    Ok(())
}

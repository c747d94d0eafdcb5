//! What holds of the lines by portion. Each function does nothing: its contract is the law that the sentence above it
//! tells.

ghost use Rattle.std.specs.Prelude.{◌≡◌, ◌≤◌, ◌+◌, ℕ, ◌+ℤ◌, List};
ghost use Rattle.std.specs.List.{AllByRecursion};
ghost use Rattle.mf_ledger.specs.Runs.{Selection, at_end_of, balance, between, posted, transactions};
ghost use Rattle.mf_ledger.specs.declared.books.Title.TheVariants as title;
ghost use Rattle.mf_model.specs.Institution.{Institution};
ghost use Rattle.mf_model.specs.Run.{Line};
ghost use Rattle.mf_model.specs.Sound.{AreInRange, IsSound};
ghost use Rattle.mf_portions.specs.Portions.{portion_lines};
ghost use Rattle.mf_portions.specs.Ties.{AddsUp, come_to, earned, left, lost};
ghost use Rattle.mf_portions.specs.declared.lines.Heading.TheVariants as heading;

/// Each line of a sound institution adds up: what is owed is paid, waived, written off or outstanding, to the cent.
pub fn each_line_adds_up()
    ensures { (i : Institution) → IsSound i → AllByRecursion AddsUp (portion_lines i) }
{}

/// Over any offices and products, the lines of a sound institution come to what its books have there: principal
/// outstanding and written off, and what was paid of interest, fees and penalties and kept at the pay-out, as income.
/// What the books have by office is what an audit adds up (`books_tie_to_an_audit` of `mf_ledger`).
pub fn lines_come_to_the_books()
    ensures outstanding { (i : Institution) (meant : Selection) → IsSound i →
        come_to heading.Principal left meant (portion_lines i) ≡ balance title.Principal meant i }
    ensures written_off { (i : Institution) (meant : Selection) → IsSound i →
        come_to heading.Principal lost meant (portion_lines i) ≡ balance title.WrittenOff meant i }
    ensures interest { (i : Institution) (meant : Selection) → IsSound i →
        come_to heading.Interest earned meant (portion_lines i) ≡ balance title.Interest meant i }
    ensures fees { (i : Institution) (meant : Selection) → IsSound i →
        come_to heading.Fees earned meant (portion_lines i) ≡ balance title.Fees meant i }
    ensures penalties { (i : Institution) (meant : Selection) → IsSound i →
        come_to heading.Penalties earned meant (portion_lines i) ≡ balance title.Penalties meant i }
    ensures kept { (i : Institution) (meant : Selection) → IsSound i →
        come_to heading.Kept earned meant (portion_lines i) ≡ balance title.DisbursementFees meant i }
{}

/// The movement of business days is what the ledger posted on them: over any offices and products, the lines at the end
/// of the last day come to those before the first and the postings between.
pub fn movement_ties_to_the_ledger()
    ensures outstanding { (i : Institution) (lines : List Line) (n day last : ℕ) (meant : Selection) →
        IsSound i → AreInRange lines → day ≤ last →
        come_to heading.Principal left meant (portion_lines (at_end_of last lines i))
        ≡ come_to heading.Principal left meant (portion_lines (at_end_of day lines i))
        +ℤ posted title.Principal meant (between (day + 1) last (transactions n lines i)) }
    ensures written_off { (i : Institution) (lines : List Line) (n day last : ℕ) (meant : Selection) →
        IsSound i → AreInRange lines → day ≤ last →
        come_to heading.Principal lost meant (portion_lines (at_end_of last lines i))
        ≡ come_to heading.Principal lost meant (portion_lines (at_end_of day lines i))
        +ℤ posted title.WrittenOff meant (between (day + 1) last (transactions n lines i)) }
    ensures interest { (i : Institution) (lines : List Line) (n day last : ℕ) (meant : Selection) →
        IsSound i → AreInRange lines → day ≤ last →
        come_to heading.Interest earned meant (portion_lines (at_end_of last lines i))
        ≡ come_to heading.Interest earned meant (portion_lines (at_end_of day lines i))
        +ℤ posted title.Interest meant (between (day + 1) last (transactions n lines i)) }
    ensures fees { (i : Institution) (lines : List Line) (n day last : ℕ) (meant : Selection) →
        IsSound i → AreInRange lines → day ≤ last →
        come_to heading.Fees earned meant (portion_lines (at_end_of last lines i))
        ≡ come_to heading.Fees earned meant (portion_lines (at_end_of day lines i))
        +ℤ posted title.Fees meant (between (day + 1) last (transactions n lines i)) }
    ensures penalties { (i : Institution) (lines : List Line) (n day last : ℕ) (meant : Selection) →
        IsSound i → AreInRange lines → day ≤ last →
        come_to heading.Penalties earned meant (portion_lines (at_end_of last lines i))
        ≡ come_to heading.Penalties earned meant (portion_lines (at_end_of day lines i))
        +ℤ posted title.Penalties meant (between (day + 1) last (transactions n lines i)) }
    ensures kept { (i : Institution) (lines : List Line) (n day last : ℕ) (meant : Selection) →
        IsSound i → AreInRange lines → day ≤ last →
        come_to heading.Kept earned meant (portion_lines (at_end_of last lines i))
        ≡ come_to heading.Kept earned meant (portion_lines (at_end_of day lines i))
        +ℤ posted title.DisbursementFees meant (between (day + 1) last (transactions n lines i)) }
{}

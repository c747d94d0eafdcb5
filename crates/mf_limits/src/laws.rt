//! Laws of limits. Each function does nothing: its contract is the law.

ghost use Rattle.std.specs.Prelude.{◌≡◌, ◌<◌, ◌≤◌, ◌↔◌, ◌&&◌, ℕ, Bool, List, None, Some, Err, true, drop, length};
ghost use Rattle.std.specs.Prelude.{nat_le, take, IsUtf8};
ghost use Rattle.std.specs.List.{list_all};
ghost use Rattle.std.specs.Str.{chars};
ghost use Rattle.mf_base.specs.declared.fault.Fault.TheVariants.{F18};
ghost use Rattle.mf_office.specs.declared.caller.Caller.{Caller};
ghost use Rattle.mf_office.specs.declared.staff.Role.{Role};
ghost use Rattle.mf_office.specs.Numbers.{IsNumberUpTo};
ghost use Rattle.mf_catalog.specs.declared.product.ProductMembers.{ProductMembers};
ghost use Rattle.mf_account.specs.declared.entry.Entry.{Entry};
ghost use Rattle.mf_account.specs.Loan.{DisbursedLoan, AreEntries};
ghost use Rattle.mf_account.specs.Receipts.{is_printable, is_receipt};
ghost use Rattle.mf_account.specs.Refusals.{refusal_of};
ghost use Rattle.mf_model.specs.declared.request.Application.{Application};
ghost use Rattle.mf_model.specs.Catalogue.{add_charge, make_product};
ghost use Rattle.mf_model.specs.Institution.{Catalogue, Ledger, ListedCharge, Office, Rows};
ghost use Rattle.mf_model.specs.Loans.{lines_above, lines_from, make_loan};
ghost use Rattle.mf_model.specs.Offices.{add_client, add_staff};
ghost use Rattle.mf_model.specs.Sound.{IsName, IsSoundOffice, is_plain};
ghost use Rattle.mf_limits.specs.Limits.{greatest_office, most_staff, most_accounts, most_in_catalogue, most_entries};
ghost use Rattle.mf_limits.specs.Limits.{most_listed, longest_receipt, longest_name, longest_line, longest_told};
ghost use Rattle.mf_limits.specs.Limits.{longest_sheet};

use mf_account::MOST_ENTRIES;
use mf_model::MOST_IN_CATALOGUE;
use mf_office::{AccountNo, OfficeNo, StaffNo};
use mf_sheet_lines::LONGEST;
use mf_wire_lines::{LONGEST_LINE, LONGEST_TOLD};

/// Each limit of the code is the number that is stated for it.
pub fn limits_are_as_stated()
    ensures office { OfficeNo.MAX ≡ greatest_office }
    ensures staff { StaffNo.MAX ≡ most_staff }
    ensures account { AccountNo.MAX ≡ most_accounts }
    ensures catalogue { MOST_IN_CATALOGUE ≡ most_in_catalogue }
    ensures entries { MOST_ENTRIES ≡ most_entries }
    ensures line { LONGEST_LINE ≡ longest_line }
    ensures told { LONGEST_TOLD ≡ longest_told }
    ensures sheet { LONGEST ≡ longest_sheet }
{}

/// The texts that may be receipts and names are those up to these limits, and a reply lists so many loans.
pub fn texts_and_lists_keep_the_limits()
    ensures receipt { (text : List ℕ) → is_receipt text ≡ (nat_le 1 (length text)
        && nat_le (length text) longest_receipt && list_all is_printable text) }
    ensures name { (name : List ℕ) → IsName name → (1 ≤ length (chars name)) × (length (chars name) ≤ longest_name) }
    ensures names { (name : List ℕ) → IsUtf8 name → list_all is_plain (chars name) ≡ true → 1 ≤ length (chars name) →
        length (chars name) ≤ longest_name → IsName name }
    ensures listed { (k : Catalogue) (office n : ℕ) (loans : List Ledger) →
        lines_above k office n loans ≡ take most_listed (drop n (lines_from k office 1 loans)) }
{}

/// What would be one more than a limit is refused with F18, and what keeps the limit is not.
pub fn rows_keep_the_limits()
    ensures staff { (office : ℕ) (name : List ℕ) (role : Role) (rows : Rows) →
        add_staff office name role rows ≡ Err F18 ↔ most_staff ≤ length rows.staff }
    ensures clients { (office : ℕ) (name : List ℕ) (rows : Rows) →
        add_client office name rows ≡ Err F18 ↔ most_accounts ≤ length rows.clients }
    ensures loans { (office : ℕ) (asked : Application) (rows : Rows) →
        make_loan office asked rows ≡ Err F18 ↔ most_accounts ≤ length rows.loans }
    ensures charges { (charge : ListedCharge) (k : Catalogue) →
        add_charge charge k ≡ Err F18 ↔ most_in_catalogue ≤ length k.charges }
    ensures products { (members : ProductMembers) (k : Catalogue) →
        make_product members k ≡ Err F18 ↔ most_in_catalogue ≤ length k.products }
    ensures entries { (loan : DisbursedLoan) (entry : Entry) (day : ℕ) → refusal_of loan entry day ≡ Some F18 →
        most_entries ≤ length loan.entries }
    ensures most { (loan : DisbursedLoan) (entry : Entry) (day : ℕ) → refusal_of loan entry day ≡ None →
        length loan.entries < most_entries }
    ensures kept { (n day : ℕ) (entries : List Entry) → AreEntries n day entries → length entries ≤ most_entries }
    ensures office { (k : Catalogue) (staffed : Caller → Bool) (f : Office) → IsSoundOffice k staffed f →
        IsNumberUpTo greatest_office f.number }
{}

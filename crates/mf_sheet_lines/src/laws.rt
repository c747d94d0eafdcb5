//! Laws of sheets. Each function does nothing: its contract is the law.

ghost use Rattle.std.specs.Prelude.{◌≡◌, [], ◌∷◌, ◌++◌, None, Some, codes};
ghost use Rattle.mf_sheet_lines.specs.Fields.{amount_written, cents_written, day_written, receipt_written};
ghost use Rattle.mf_sheet_lines.specs.Fields.{without_blanks};
ghost use Rattle.mf_sheet_lines.specs.Results.{record_text, result_text};
ghost use Rattle.mf_sheet_lines.specs.Sheets.{lines_of, sheet_rows_of};

use crate::line::SheetLine;
use crate::results::SheetResult;
use mf_base::Fault;

/// What texts of fields stand for. Day 8825 is 29 February 2024.
pub fn worked_fields()
    ensures amounts { (cents_written (codes "200") ≡ Some 20000) × (cents_written (codes "1.5") ≡ Some 150)
        × (cents_written (codes "007.05") ≡ Some 705) × (cents_written (codes "10000000000") ≡ Some 1000000000000) }
    ensures no_amounts { (cents_written (codes "10000000000.01") ≡ None) × (cents_written (codes "1.") ≡ None)
        × (cents_written (codes ".5") ≡ None) × (cents_written (codes "1.234") ≡ None)
        × (cents_written (codes "-1") ≡ None) × (cents_written (codes "1,000") ≡ None) × (cents_written [] ≡ None) }
    ensures nothing { (cents_written (codes "0") ≡ Some 0) × (amount_written (codes "0") ≡ None) }
    ensures days { (day_written (codes "2024-02-29") ≡ Some 8825) × (day_written (codes "2023-02-29") ≡ None)
        × (day_written (codes "2024-2-29") ≡ None) × (day_written (codes "1999-12-31") ≡ None)
        × (day_written (codes "2100-01-01") ≡ None) }
    ensures receipts { (receipt_written (codes "R-1") ≡ Some (codes "R-1")) × (receipt_written (codes "R 1") ≡ None)
        × (receipt_written [] ≡ None) }
    ensures blanks { without_blanks (codes " \tR 1\t ") ≡ codes "R 1" }
{}

/// Which lines a sheet has, and what they ask for. Day 8825 is 29 February 2024, day 8856 is 31 March.
pub fn worked_sheets()
    ensures empty { (sheet_rows_of [] ≡ []) × (sheet_rows_of (codes "receipt,loan,date,amount\n") ≡ [])
        × (sheet_rows_of (codes " Receipt\t,LOAN, date ,Amount\r\n") ≡ []) }
    ensures no_names { (sheet_rows_of (codes "loan,receipt,date,amount")
        ≡ (codes "loan" ∷ codes "receipt" ∷ codes "date"
        ∷ codes "amount" ∷ []) ∷ [])
        × (sheet_rows_of (codes "receipt,loan,date,amount,x") ≡ (codes "receipt" ∷ codes "loan" ∷ codes "date"
        ∷ codes "amount" ∷ codes "x" ∷ []) ∷ []) }
    ensures mark { (sheet_rows_of (239 ∷ 187 ∷ 191 ∷ codes "receipt,loan,date,amount\na,b")
        ≡ (codes "a" ∷ codes "b" ∷ [])
        ∷ []) }
    ensures quoted { sheet_rows_of (codes "\"x,y\",\"say \"\"so\"\"\",\"a\r\nb\"\r\nc")
        ≡ (codes "x,y" ∷ codes "say \"so\""
        ∷ codes "a\r\nb" ∷ []) ∷ (codes "c" ∷ []) ∷ [] }
    ensures asked { lines_of (codes "R-1,0001-000001,2024-02-29,200") ≡ SheetLine.Repay (record {
      receipt = codes "R-1";
      loan = record { office = 1; number = 1 };
      day = 8825;
      amount = 20000;
    }) ∷ [] }
    ensures sheet { lines_of (codes "receipt,loan,date,amount\nR-1,0001-000001,2024-02-29,200\n"
        ++ codes "R-2,0001-000001,2024-03-31,500.00\nR-3,0001-000009,2024-03-31,1.5\n")
        ≡ SheetLine.Repay (record {
          receipt = codes "R-1";
          loan = record { office = 1; number = 1 };
          day = 8825;
          amount = 20000;
        }) ∷ SheetLine.Repay (record {
          receipt = codes "R-2";
          loan = record { office = 1; number = 1 };
          day = 8856;
          amount = 50000;
        }) ∷ SheetLine.Repay (record {
          receipt = codes "R-3";
          loan = record { office = 1; number = 9 };
          day = 8856;
          amount = 150;
        }) ∷ [] }
    ensures bad { lines_of (codes "a,b\na,b,c,d,e\nR-1,0001-000001,2024-02-29,0") ≡ SheetLine.Bad ∷ SheetLine.Bad
        ∷ SheetLine.Bad ∷ [] }
{}

/// What the results of lines are written as.
pub fn worked_results()
    ensures few { record_text (codes "a" ∷ codes "b" ∷ []) (SheetResult.Refused Fault.F1) ≡ codes "a,b,,,F1\n" }
    ensures many { record_text (codes "a" ∷ codes "b" ∷ codes "c" ∷ codes "d" ∷ codes "e" ∷ [])
        (SheetResult.Refused Fault.F1) ≡ codes "a,b,c,d,F1\n" }
    ensures quoted { record_text (codes "x,y" ∷ codes " \"" ∷ codes "a\r\nb" ∷ codes " 1 " ∷ []) SheetResult.Repeated
        ≡ codes "\"x,y\",\" \"\"\",\"a\r\nb\", 1 ,repeated\n" }
    ensures empty { result_text [] [] ≡ codes "receipt,loan,date,amount,result\n" }
    ensures sheet { result_text (codes "receipt,loan,date,amount\nR-1,0001-000001,2024-02-29,201\na,b\n")
        (SheetResult.Refused Fault.F15 ∷ SheetResult.Refused Fault.F1 ∷ [])
        ≡ codes "receipt,loan,date,amount,result\nR-1,0001-000001,2024-02-29,201,F15\na,b,,,F1\n" }
{}

//! What the rows of offices stand for.

ghost use Rattle.std.specs.Prelude.{◌≡◌, ℕ, List, Option, map, IfSome, IfOk, IfErr};
ghost use Rattle.mf_office.specs.Numbers.{IsNumberUpTo};
ghost use Rattle.mf_base.specs.declared.fault.Fault.TheVariants.{F20};
ghost use Rattle.mf_model.specs.Institution.{Office};
ghost use Rattle.mf_model.specs.Desk.{office_shown};
ghost use Rattle.mf_store_values.specs.Flat.{office_under};
ghost use Rattle.mf_store_schema.specs.Rows.{office_row};

use mf_base::Fault;
use mf_model::OfficeList;
use mf_office::OfficeNo;
use mf_store_schema::{OfficeRow, read_row};
use sqlite::Row;
use std::alloc::Global;

/// The number of an office that a row keeps. F20 where it is none, which no number in the tables is.
pub(crate) fn office_number(number: u32) -> Result<OfficeNo, Fault>
    ensures number { IfOk result (λ n. n ≡ number) }
    ensures none { IfErr result (λ _. ¬ IsNumberUpTo 9999 number) }
    ensures gives_up { IfErr result (λ fault. fault ≡ F20) }
{
    match OfficeNo::new(number) {
        Some(number) => Ok(number),
        None => Err(Fault::F20),
    }
}

/// The number of the office above, where there is one.
fn parent_number(number: Option<u32>) -> Result<Option<OfficeNo>, Fault>
    ensures number { IfOk result (λ n. n ≡ number) }
    ensures none { IfErr result (λ _. IfSome number (λ n. ¬ IsNumberUpTo 9999 n)) }
    ensures gives_up { IfErr result (λ fault. fault ≡ F20) }
{
    match number {
        None => Ok(None),
        Some(number) => Ok(Some(office_number(number)?)),
    }
}

/// The office of a row.
fn office_from(row: &Row) -> Result<mf_office::Office, Fault>
    ensures office { IfOk result (λ office. (parents : ℕ → Option ℕ) (f : Office)
        → row.now ≡ office_row (office_under parents f) → office ≡ office_shown f) }
    ensures gives_up { IfErr result (λ fault. fault ≡ F20) }
{
    let found = read_row::<OfficeRow>(row)?;
    let number = office_number(found.number)?;
    let parent = parent_number(found.parent)?;
    Ok(mf_office::Office {
        number,
        parent,
        name: found.name.into_name(),
    })
}

/// The offices of the rows, in order.
pub fn offices_from(alloc: Global, rows: &[Row]) -> Result<OfficeList, Fault>
    ensures offices { IfOk result (λ list. (parents : ℕ → Option ℕ) (fs : List Office)
        → rows.now ≡ map (λ f. office_row (office_under parents f)) fs → list ≡ map office_shown fs) }
    ensures gives_up { IfErr result (λ fault. fault ≡ F20) }
{
    let mut offices = Vec::new(alloc);
    for row in rows {
        offices.push(office_from(row)?)?;
    }
    Ok(OfficeList::new(offices))
}

//! Rows of whatever values, as records.

ghost use Rattle.std.specs.Prelude.{◌≡◌, ◌++◌, ◌∷◌, [], List, IfOk, IfErr, IfSome, IfNone};
ghost use Rattle.mf_base.specs.declared.fault.Fault.TheVariants.{F20};
ghost use Rattle.sqlite.specs.Order.{Row};
ghost use Rattle.mf_store_schema.specs.Fields.{HasFields};
ghost use Rattle.mf_store_schema.specs.Read.{AreRead};

use crate::table::Table;
use mf_base::Fault;
use sqlite::{Error, ErrorCode, Row};

/// The record that has this row, and none where no record of its fields can hold it.
pub fn read_any<T: Table>(row: &Row) -> Result<Option<T>, Fault>
    ensures some { IfOk result (λ x. IfSome x (λ r. T.stored r ≡ row.now)) }
    ensures only { IfOk result (λ x. IfSome x (λ r. (s : T) → row.now ≡ T.stored s → r ≡ s)) }
    ensures none { IfOk result (λ x. IfNone x (¬ HasFields (T.columns).columns row.now)) }
    ensures gives_up { IfErr result (λ fault. fault ≡ F20) }
{
    match T::read(row) {
        Ok(record) => Ok(Some(record)),
        Err(Error::SqliteFailure(ErrorCode::OutOfMemory)) => Err(Fault::F20),
        Err(_) => Ok(None),
    }
}

/// The records of the rows so far and of one more, and none where one of these rows is no record's.
pub(crate) fn with_row<T: Table + Drop>(
    records: Option<Vec<T>>,
    row: &Row,
) -> Result<Option<Vec<T>>, Fault>
    ensures read { (rows : List Row) → AreRead T.stored (T.columns).columns records rows
        → IfOk result (λ x. AreRead T.stored (T.columns).columns x (rows ++ row.now ∷ [])) }
    ensures gives_up { IfErr result (λ fault. fault ≡ F20) }
{
    let Some(mut read) = records else {
        return Ok(None);
    };
    let found: Option<T> = read_any(row)?;
    let Some(record) = found else {
        return Ok(None);
    };
    read.push(record)?;
    Ok(Some(read))
}

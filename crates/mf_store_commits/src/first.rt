//! The writes of a new institution.

ghost use Rattle.std.specs.Prelude.{◌≡◌, IfOk, IfErr, None};
ghost use Rattle.mf_base.specs.declared.fault.Fault.TheVariants.{F20};
ghost use Rattle.mf_store_commits.specs.Becoming.{Begins};

use mf_base::{Day, Fault};
use mf_store_schema::{MetaRow, OfficeRow, SCHEMA, StaffRow, StoreWrite, Text};
use std::alloc::Global;

/// The tables, the business day, the head office and its manager.
pub fn first_writes(alloc: Global, day: Day) -> Result<Vec<StoreWrite>, Fault>
    ensures writes { IfOk result (λ writes. Begins writes.items day) }
    ensures gives_up { IfErr result (λ fault. fault ≡ F20) }
{
    let mut writes = Vec::new(alloc);
    writes.push(StoreWrite::MakeTables)?;
    let meta = MetaRow {
        one: 1,
        schema: SCHEMA,
        day: Text::new(day.text(alloc)?),
    };
    writes.push(StoreWrite::PutMeta(meta))?;
    let head = OfficeRow {
        number: 1,
        parent: None,
        hkey: Text::new(String::from_str(alloc, ".")?),
        name: Text::new(String::from_str(alloc, "Head Office")?),
    };
    writes.push(StoreWrite::PutOffice(head))?;
    let manager = StaffRow {
        office: 1,
        number: 1,
        name: Text::new(String::from_str(alloc, "Head Manager")?),
        role: 3,
    };
    writes.push(StoreWrite::PutStaff(manager))?;
    Ok(writes)
}

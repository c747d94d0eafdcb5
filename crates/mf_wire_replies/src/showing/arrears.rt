//! The report of arrears as JSON.

ghost use Rattle.std.specs.Prelude.{◌≡◌, IfOk, IfErr, OnOk};
ghost use Rattle.serde_json.specs.Data.{put};
ghost use Rattle.serde_json.specs.View.{view, members_view};
ghost use Rattle.mf_model.specs.declared.reply.Reply.TheVariants.{ArrearsShown};
ghost use Rattle.mf_wire_replies.specs.Shown.{IsBodyOf};
ghost use Rattle.mf_wire_replies.specs.ArrearsTexts.{money, line_end, all_data, arrears_line_data};

use super::Body;
use super::lists::{Shown, array_of};
use super::members::Members;
use mf_arrears::{OfficeLine, Totals};
use mf_base::{Fault, money_text};
use serde_json::Value;
use std::alloc::Global;

/// Puts an amount, as its money text.
fn put_money(alloc: Global, members: &mut Members, name: &str, cents: u128) -> Result<(), Fault>
    ensures ok { OnOk result (members_view members.new.map.entries ≡ put name.now (money cents)
        (members_view members.old.map.entries)) }
    ensures err { IfErr result (λ f. f ≡ Fault.F20) }
{
    let text = money_text(alloc, cents)?;
    members.put(alloc, name, Value::String(text))?;
    Ok(())
}

/// A line's members from `outstanding` on.
fn line_end(alloc: Global, outstanding: u128, over_90: u128, par30: u128) -> Result<Members, Fault>
    ensures ok { IfOk result (λ members. members_view members.map.entries ≡ line_end outstanding over_90 par30) }
    ensures err { IfErr result (λ f. f ≡ Fault.F20) }
{
    let mut members = Members::new(alloc);
    put_money(alloc, &mut members, "par30", par30)?;
    put_money(alloc, &mut members, "over_90", over_90)?;
    put_money(alloc, &mut members, "outstanding", outstanding)?;
    Ok(members)
}

/// The sums of all offices.
fn all_value(alloc: Global, all: &Totals) -> Result<Value, Fault>
    ensures ok { IfOk result (λ v. view v ≡ all_data all.now) }
    ensures err { IfErr result (λ f. f ≡ Fault.F20) }
{
    let mut members = line_end(alloc, all.outstanding, all.over_90, all.par30())?;
    members.put_whole(alloc, "loans", all.loans)?;
    put_money(alloc, &mut members, "c61_90", all.c61_90)?;
    put_money(alloc, &mut members, "c31_60", all.c31_60)?;
    put_money(alloc, &mut members, "c1_30", all.c1_30)?;
    Ok(members.into_value())
}

impl Shown for OfficeLine {
    ghost json = { arrears_line_data };

    fn value(&self, alloc: Global) -> Result<Value, Fault> {
        let mut members = line_end(alloc, self.outstanding, self.over_90, self.par30())?;
        members.put_whole(alloc, "office", self.office.get() as u64)?;
        members.put_whole(alloc, "loans", self.loans)?;
        put_money(alloc, &mut members, "c61_90", self.c61_90)?;
        put_money(alloc, &mut members, "c31_60", self.c31_60)?;
        put_money(alloc, &mut members, "c1_30", self.c1_30)?;
        Ok(members.into_value())
    }
}

/// The arrears of offices, and their sums. A report over more than 10^10 loans is refused as if out of memory; 9,999
/// offices with 999,999 loans each have fewer.
pub fn arrears_shown(alloc: Global, lines: &[OfficeLine]) -> Result<Body, Fault>
    ensures ok { IfOk result (IsBodyOf (ArrearsShown lines.now)) }
    ensures err { IfErr result (λ f. f ≡ Fault.F20) }
{
    let Some(all) = Totals::of(lines) else {
        return Err(Fault::F20);
    };
    let mut members = Members::new(alloc);
    members.put(alloc, "offices", array_of(alloc, lines)?)?;
    members.put(alloc, "all", all_value(alloc, &all)?)?;
    Ok(Body::Value(members.into_value()))
}

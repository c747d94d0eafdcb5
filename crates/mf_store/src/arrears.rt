//! The active loans of offices, by days overdue, from the instalments that are kept: one query an office, one row held
//! at a time.

ghost use Rattle.std.specs.Prelude.{◌≡◌, map, OnOk, IfOk, IfErr};
ghost use Rattle.mf_arrears.specs.Line.{line_of_loans};
ghost use Rattle.mf_model.specs.Arrears.{active_in, arrears_seen};
ghost use Rattle.mf_model.specs.Institution.{Institution};
ghost use Rattle.mf_model.specs.Store.{rows_at};
ghost use Rattle.mf_store_values.specs.Arrears.{line_at};

use crate::store::Store;
use mf_arrears::OfficeLine;
use mf_base::{Day, Fault};
use mf_model::ArrearsList;
use mf_office::{Office, OfficeNo};
use mf_store_values::{NoLine, line_of_office};
use sqlite::Alter;
use std::alloc::Global;

impl<S: Alter> Store<S> {
    ghost use Rattle.mf_store.specs.Stands.{StandsFor, IsClean, IsOpen, Stays, MayAskTables};

    /// An office's line on a day, by one query over the instalments of its loans. No institution's loans come to too
    /// much.
    fn line_of_office(&mut self, office: OfficeNo, today: Day) -> Result<OfficeLine, NoLine>
        ensures kept { Stays S.Store self.old self.new }
        ensures open { IsClean S.Store self.new → OnOk result (IsOpen S.Store self.new) }
        ensures sums { IsClean S.Store self.new → (i : Institution) → StandsFor S.Store self.old i
            → IfErr result (λ why. why ≡ NoLine.Unread) }
        ensures line { IsClean S.Store self.new → (i : Institution) → StandsFor S.Store self.old i
            → today ≡ i.catalogue.day
            → IfOk result (λ line. line ≡ line_of_loans office (active_in i.catalogue (rows_at office i).loans)) }
    {
        line_of_office(&mut self.connection, office, today)
    }

    /// The same, or F20.
    fn office_line(&mut self, office: OfficeNo, today: Day) -> Result<OfficeLine, Fault>
        ensures asks { MayAskTables S.Store self.old self.new result }
        ensures value { IsClean S.Store self.new → (i : Institution) → StandsFor S.Store self.old i
            → today ≡ i.catalogue.day
            → IfOk result (λ line. line ≡ line_of_loans office (active_in i.catalogue (rows_at office i).loans)) }
    {
        match self.line_of_office(office, today) {
            Ok(line) => Ok(line),
            Err(NoLine::Unread | NoLine::TooGreat) => Err(Fault::F20),
        }
    }

    /// The lines of offices on a day, in their order.
    fn lines_of_offices(
        &mut self,
        alloc: Global,
        offices: &[Office],
        today: Day,
    ) -> Result<ArrearsList, Fault>
        ensures asks { MayAskTables S.Store self.old self.new result }
        ensures value { IsClean S.Store self.new → (i : Institution) → StandsFor S.Store self.old i
            → today ≡ i.catalogue.day
            → IfOk result (λ list. list ≡ map (line_at i) offices.now) }
    {
        let mut lines = Vec::new(alloc);
        for office in offices {
            let line = self.office_line(office.number, today)?;
            lines.push(line)?;
        }
        Ok(ArrearsList::new(lines))
    }

    /// The lines of the offices at or below one, by number, on the business day.
    pub fn office_lines(&mut self, alloc: Global, to: OfficeNo) -> Result<ArrearsList, Fault>
        ensures asks { MayAskTables S.Store self.old self.new result }
        ensures value { IsClean S.Store self.new → (i : Institution) → StandsFor S.Store self.old i
            → IfOk result (λ list. list ≡ arrears_seen to i) }
    {
        let offices = self.offices(alloc, to)?;
        let today = self.business_day()?;
        self.lines_of_offices(alloc, offices.as_slice(), today)
    }
}

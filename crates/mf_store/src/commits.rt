//! Commits: each is one change of the institution, made whole or, with F20, not at all. A stop during the call leaves
//! what it could before, or the change.

ghost use Rattle.std.specs.Prelude.{◌≡◌, IfOk};
ghost use Rattle.mf_model.specs.Institution.{Institution};
ghost use Rattle.mf_model.specs.Notes.{noted_now};
ghost use Rattle.mf_model.specs.Tree.{is_there};
ghost use Rattle.mf_model.specs.declared.commit.Commit.TheVariants.{AddOffice, AddStaff, AddClient};

use crate::counts::MOST;
use crate::known::News;
use crate::store::Store;
use mf_base::{Choice, Fault};
use mf_model::{Counts, Note, laws};
use mf_office::{Name, OfficeNo, Role};
use mf_store_schema::{ClientRow, OfficeRow, StaffRow, StoreWrite, Text};
use sqlite::Alter;
use std::alloc::Global;

impl<S: Alter> Store<S> {
    ghost use Rattle.mf_store.specs.Stands.{StandsFor, IsClean, MayAskTables, MakesCommit};

    /// Whether an office is there.
    pub(crate) fn has_office(&mut self, number: u32) -> Result<bool, Fault>
        ensures asks { MayAskTables S.Store self.old self.new result }
        ensures value { IsClean S.Store self.new → (i : Institution) → StandsFor S.Store self.old i
            → IfOk result (λ there. there ≡ is_there i.offices number) }
    {
        if self.known().has_key(number) {
            return Ok(true);
        }
        self.has_row::<OfficeRow>(number)
    }

    /// Adds an office under a parent that is there. Its number is free; where it isn't, the call gives up.
    pub(crate) fn add_office(
        &mut self,
        alloc: Global,
        number: OfficeNo,
        parent: OfficeNo,
        name: Name,
        note: &Note<'_>,
    ) -> Result<(), Fault>
        ensures { MakesCommit S.Store (AddOffice number parent name) (noted_now note.now) self.old self.new result }
    {
        laws::tree_of_offices();
        let parent = parent.get();
        let taken = self.has_office(number.get())?;
        if taken {
            return Err(Fault::F20);
        }
        let Some(above) = self.key(parent)? else {
            return Err(Fault::F20);
        };
        let key = above.child(alloc, number)?;
        let office = OfficeRow {
            number: number.get(),
            parent: Some(parent),
            hkey: Text::new(key.into_text()),
            name: Text::of_name(name),
        };
        self.make(alloc, &[StoreWrite::PutOffice(office)], News::Nothing, note)
    }

    /// Adds a member of staff of an office that is there, under the next number.
    pub(crate) fn add_staff(
        &mut self,
        alloc: Global,
        office: OfficeNo,
        name: Name,
        role: Role,
        note: &Note<'_>,
    ) -> Result<(), Fault>
        ensures { MakesCommit S.Store (AddStaff office name role) (noted_now note.now) self.old self.new result }
    {
        let office = office.get();
        let counts = self.counts_there(office)?;
        if counts.staff > MOST {
            return Err(Fault::F20);
        }
        let number = counts.staff + 1;
        let staff = StaffRow {
            office,
            number,
            name: Text::of_name(name),
            role: role.number(),
        };
        let now = Counts {
            staff: number,
            ..counts
        };
        self.make(
            alloc,
            &[StoreWrite::PutStaff(staff)],
            News::OfficeCounts(office, now),
            note,
        )
    }

    /// Adds a client of an office that is there, under the next number.
    pub(crate) fn add_client(
        &mut self,
        alloc: Global,
        office: OfficeNo,
        name: Name,
        note: &Note<'_>,
    ) -> Result<(), Fault>
        ensures { MakesCommit S.Store (AddClient office name) (noted_now note.now) self.old self.new result }
    {
        let office = office.get();
        let counts = self.counts_there(office)?;
        if counts.clients > MOST {
            return Err(Fault::F20);
        }
        let number = counts.clients + 1;
        let client = ClientRow {
            office,
            number,
            name: Text::of_name(name),
        };
        let now = Counts {
            clients: number,
            ..counts
        };
        self.make(
            alloc,
            &[StoreWrite::PutClient(client)],
            News::OfficeCounts(office, now),
            note,
        )
    }
}

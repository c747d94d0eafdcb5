//! The lists of the program's store, for the desk of the lists.

ghost use Rattle.std.specs.Prelude.{◌≡◌, is_some};

use crate::changes::{changes_after, changes_of_loan};
use crate::client_loans::loans_of_client;
use crate::clients::clients_after;
use crate::due::due_after;
use crate::finding::find_clients;
use crate::staff::staff_of;
use crate::stages::stages_after;
use crate::takings::takings_on;
use mf_base::{Day, Fault, Name};
use mf_lists::{ChangeLine, ClientLine, ClientLoan, DueLine, StaffLine, StageLine, Taking};
use mf_lists_desk::Lists;
use mf_office::{Account, OfficeNo};
use mf_statement::Listing;
use mf_store::Store;
use sqlite::Alter;
use std::alloc::Global;

/// Tells the lists of a store by its tables. Names are compared without case and accents (`mf_folding`).
#[derive(Clone, Copy)]
pub struct StoreLists;

impl StoreLists {
    /// These lists where they are asked for, or none.
    pub fn where_asked(&self, asked: bool) -> Option<&StoreLists>
        ensures { is_some result ≡ asked }
    {
        if asked { Some(self) } else { None }
    }
}

impl<S: Alter> Lists<Store<S>> for StoreLists {
    ghost use Rattle.mf_folding.specs.Folding.{folded};

    ghost folded = { folded };

    fn clients_after(
        &self,
        alloc: Global,
        store: &mut Store<S>,
        office: OfficeNo,
        after: u32,
    ) -> Result<Listing<ClientLine>, Fault> {
        clients_after(alloc, store, office, after)
    }

    fn loans_of_client(
        &self,
        alloc: Global,
        store: &mut Store<S>,
        client: Account,
    ) -> Result<Option<Listing<ClientLoan>>, Fault> {
        loans_of_client(alloc, store, client)
    }

    fn due_after(
        &self,
        alloc: Global,
        store: &mut Store<S>,
        office: OfficeNo,
        day: Day,
        after: u32,
    ) -> Result<Listing<DueLine>, Fault> {
        due_after(alloc, store, office, day, after)
    }

    fn stages_after(
        &self,
        alloc: Global,
        store: &mut Store<S>,
        office: OfficeNo,
        status: u32,
        after: u32,
    ) -> Result<Listing<StageLine>, Fault> {
        stages_after(alloc, store, office, status, after)
    }

    fn staff_of(
        &self,
        alloc: Global,
        store: &mut Store<S>,
        office: OfficeNo,
    ) -> Result<Listing<StaffLine>, Fault> {
        staff_of(alloc, store, office)
    }

    fn find_clients(
        &self,
        alloc: Global,
        store: &mut Store<S>,
        office: OfficeNo,
        part: &Name,
    ) -> Result<Listing<ClientLine>, Fault> {
        find_clients(alloc, store, office, part)
    }

    fn changes_of_loan(
        &self,
        alloc: Global,
        store: &mut Store<S>,
        loan: Account,
    ) -> Result<Option<Listing<ChangeLine>>, Fault> {
        changes_of_loan(alloc, store, loan)
    }

    fn changes_after(
        &self,
        alloc: Global,
        store: &mut Store<S>,
        office: OfficeNo,
        after: u32,
    ) -> Result<Option<Listing<ChangeLine>>, Fault> {
        changes_after(alloc, store, office, after)
    }

    fn takings_on(
        &self,
        alloc: Global,
        store: &mut Store<S>,
        office: OfficeNo,
        day: Day,
    ) -> Result<Option<Listing<Taking>>, Fault> {
        takings_on(alloc, store, office, day)
    }
}

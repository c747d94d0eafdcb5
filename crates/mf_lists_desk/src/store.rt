//! The trait between a store and the desk of the lists: the lists of an office that is there.

use mf_base::{Day, Fault, Name};
use mf_lists::{ChangeLine, ClientLine, ClientLoan, DueLine, StaffLine, StageLine, Taking};
use mf_model::InstitutionStore;
use mf_office::{Account, OfficeNo};
use mf_statement::Listing;
use std::alloc::Global;

/// What tells the lists of an office from a store of an institution, beside what the desk reads of it. A trait of its
/// own, and not of the store, so that a crate above both can tell the lists of a store that it doesn't define. Each
/// call answers what the institution says, or gives up with F20, and changes nothing. Of an office that isn't there
/// each tells an empty list.
pub trait Lists<S: InstitutionStore> {
    ghost use Rattle.std.specs.Prelude.{ℕ, List};
    ghost use Rattle.mf_lists.specs.Lists.{clients_after, due_after, find_clients, stages_after, staff_of};
    ghost use Rattle.mf_lists_desk.specs.Readings.{changes_at, client_loans_at, in_rows_of, loan_changes_at};
    ghost use Rattle.mf_lists_desk.specs.Readings.{takings_at};
    ghost use Rattle.mf_model.specs.Store.{Reads};

    /// How names are folded before they are compared.
    ghost folded: { List ℕ → List ℕ };

    /// The first 500 clients of an office whose number is above one, by number.
    fn clients_after(
        &self,
        alloc: Global,
        store: &mut S,
        office: OfficeNo,
        after: u32,
    ) -> Result<Listing<ClientLine>, Fault>
        ensures { Reads S.stands S.clean S.leaves (in_rows_of office (clients_after after)) store.old store.new
            result };

    /// The loans of a client, by number, or None where there is no such client.
    fn loans_of_client(
        &self,
        alloc: Global,
        store: &mut S,
        client: Account,
    ) -> Result<Option<Listing<ClientLoan>>, Fault>
        ensures { Reads S.stands S.clean S.leaves (client_loans_at client) store.old store.new result };

    /// The first 200 active loans of an office whose number is above one and of which something is due by a day and
    /// outstanding, by number.
    fn due_after(
        &self,
        alloc: Global,
        store: &mut S,
        office: OfficeNo,
        day: Day,
        after: u32,
    ) -> Result<Listing<DueLine>, Fault>
        ensures { Reads S.stands S.clean S.leaves (in_rows_of office (due_after day after)) store.old store.new
            result };

    /// The first 200 loans of an office whose number is above one and that have a status, by number.
    fn stages_after(
        &self,
        alloc: Global,
        store: &mut S,
        office: OfficeNo,
        status: u32,
        after: u32,
    ) -> Result<Listing<StageLine>, Fault>
        ensures { Reads S.stands S.clean S.leaves (in_rows_of office (stages_after status after)) store.old store.new
            result };

    /// The staff of an office, by number.
    fn staff_of(
        &self,
        alloc: Global,
        store: &mut S,
        office: OfficeNo,
    ) -> Result<Listing<StaffLine>, Fault>
        ensures { Reads S.stands S.clean S.leaves (in_rows_of office (λ k rows. staff_of rows)) store.old store.new
            result };

    /// The first 50 clients of an office that have a part in their name, or have it as their number or as that of one
    /// of their loans, by number.
    fn find_clients(
        &self,
        alloc: Global,
        store: &mut S,
        office: OfficeNo,
        part: &Name,
    ) -> Result<Listing<ClientLine>, Fault>
        ensures { Reads S.stands S.clean S.leaves (in_rows_of office (find_clients folded office part.now)) store.old
            store.new result };

    /// What the journal tells of a loan, in the order in which it was accepted, or None where no journal is kept.
    fn changes_of_loan(
        &self,
        alloc: Global,
        store: &mut S,
        loan: Account,
    ) -> Result<Option<Listing<ChangeLine>>, Fault>
        ensures { Reads S.stands S.clean S.leaves (loan_changes_at loan) store.old store.new result };

    /// The first 200 changes that the journal tells of an office and whose place among them is above one, or None where
    /// no journal is kept.
    fn changes_after(
        &self,
        alloc: Global,
        store: &mut S,
        office: OfficeNo,
        after: u32,
    ) -> Result<Option<Listing<ChangeLine>>, Fault>
        ensures { Reads S.stands S.clean S.leaves (changes_at office after) store.old store.new result };

    /// What was paid in and paid out at an office on a business day, by who sent the requests, or None where no journal
    /// is kept.
    fn takings_on(
        &self,
        alloc: Global,
        store: &mut S,
        office: OfficeNo,
        day: Day,
    ) -> Result<Option<Listing<Taking>>, Fault>
        ensures { Reads S.stands S.clean S.leaves (takings_at office day) store.old store.new result };
}

//! Lists that give up at once, for tests in which none is asked for.

use mf_base::{Day, Fault, Name};
use mf_lists::{ChangeLine, ClientLine, ClientLoan, DueLine, StaffLine, StageLine, Taking};
use mf_lists_desk::Lists;
use mf_model::InstitutionStore;
use mf_office::{Account, OfficeNo};
use mf_statement::Listing;
use std::alloc::Global;

pub struct NoLists;

/// The lists of a desk that has none.
pub const WITHOUT: Option<&NoLists> = None;

impl<S: InstitutionStore> Lists<S> for NoLists {
    ghost folded = { λ name. name };

    fn clients_after(
        &self,
        _alloc: Global,
        _store: &mut S,
        _office: OfficeNo,
        _after: u32,
    ) -> Result<Listing<ClientLine>, Fault> {
        Err(Fault::F20)
    }

    fn loans_of_client(
        &self,
        _alloc: Global,
        _store: &mut S,
        _client: Account,
    ) -> Result<Option<Listing<ClientLoan>>, Fault> {
        Err(Fault::F20)
    }

    fn due_after(
        &self,
        _alloc: Global,
        _store: &mut S,
        _office: OfficeNo,
        _day: Day,
        _after: u32,
    ) -> Result<Listing<DueLine>, Fault> {
        Err(Fault::F20)
    }

    fn stages_after(
        &self,
        _alloc: Global,
        _store: &mut S,
        _office: OfficeNo,
        _status: u32,
        _after: u32,
    ) -> Result<Listing<StageLine>, Fault> {
        Err(Fault::F20)
    }

    fn staff_of(
        &self,
        _alloc: Global,
        _store: &mut S,
        _office: OfficeNo,
    ) -> Result<Listing<StaffLine>, Fault> {
        Err(Fault::F20)
    }

    fn find_clients(
        &self,
        _alloc: Global,
        _store: &mut S,
        _office: OfficeNo,
        _part: &Name,
    ) -> Result<Listing<ClientLine>, Fault> {
        Err(Fault::F20)
    }

    fn changes_of_loan(
        &self,
        _alloc: Global,
        _store: &mut S,
        _loan: Account,
    ) -> Result<Option<Listing<ChangeLine>>, Fault> {
        Err(Fault::F20)
    }

    fn changes_after(
        &self,
        _alloc: Global,
        _store: &mut S,
        _office: OfficeNo,
        _after: u32,
    ) -> Result<Option<Listing<ChangeLine>>, Fault> {
        Err(Fault::F20)
    }

    fn takings_on(
        &self,
        _alloc: Global,
        _store: &mut S,
        _office: OfficeNo,
        _day: Day,
    ) -> Result<Option<Listing<Taking>>, Fault> {
        Err(Fault::F20)
    }
}

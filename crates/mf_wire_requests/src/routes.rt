//! Which route a path has, and what its methods ask.

ghost use Rattle.std.specs.Prelude.{◌≡◌, true, [], is_some, IfOk, IfErr, IfSome, OnOk, map, option_map};
ghost use Rattle.matchit.specs.declared.error.InsertError.TheVariants.{OutOfMemory};
ghost use Rattle.mf_wire_requests.specs.Routes.{with_route, takes_route, takes_table, routes_of, desk_routes};
ghost use Rattle.mf_wire_requests.specs.Routes.{matched_route, route_at};

use matchit::{InsertError, Match, Router};
use mf_model::PlainStep;
use std::alloc::Global;

/// What a method of a path asks of the loan that the path names.
#[derive(Clone, Copy, PartialEq, Eq)]
pub enum LoanEndpoint {
    Show,
    ShowInstalments,
    ShowEntries,
    Step(PlainStep),
    Disburse,
    Repay,
    ChargeFee,
    ChargePenalty,
    Waive,
    WriteOff,
    Refund,
    Reverse,
}

/// What a method of a path asks.
#[derive(Clone, Copy, PartialEq, Eq)]
pub enum Endpoint {
    ShowDay,
    SetDay,
    AddCharge,
    ShowCharge,
    AddProduct,
    ShowProduct,
    RetireProduct,
    ListOffices,
    AddOffice,
    AddStaff,
    AddClient,
    ShowClient,
    SubmitLoan,
    ListLoans,
    ShowArrears,
    OnLoan(LoanEndpoint),
}

/// The methods of a path, each with what it asks.
#[derive(Clone, Copy, PartialEq, Eq)]
pub enum Methods {
    Get(Endpoint),
    Post(Endpoint),
    GetAndPost(Endpoint, Endpoint),
    GetAndPut(Endpoint, Endpoint),
}

/// The paths, as `matchit` writes them, with their methods.
pub const ROUTES: [(&str, Methods); 28] = [
    (
        "/offices",
        Methods::GetAndPost(Endpoint::ListOffices, Endpoint::AddOffice),
    ),
    ("/staff", Methods::Post(Endpoint::AddStaff)),
    (
        "/business-day",
        Methods::GetAndPut(Endpoint::ShowDay, Endpoint::SetDay),
    ),
    ("/charges", Methods::Post(Endpoint::AddCharge)),
    ("/charges/{charge}", Methods::Get(Endpoint::ShowCharge)),
    ("/products", Methods::Post(Endpoint::AddProduct)),
    ("/products/{product}", Methods::Get(Endpoint::ShowProduct)),
    (
        "/products/{product}/retire",
        Methods::Post(Endpoint::RetireProduct),
    ),
    ("/clients", Methods::Post(Endpoint::AddClient)),
    ("/clients/{client}", Methods::Get(Endpoint::ShowClient)),
    ("/loans", Methods::Post(Endpoint::SubmitLoan)),
    (
        "/loans/{loan}",
        Methods::Get(Endpoint::OnLoan(LoanEndpoint::Show)),
    ),
    (
        "/loans/{loan}/schedule",
        Methods::Get(Endpoint::OnLoan(LoanEndpoint::ShowInstalments)),
    ),
    (
        "/loans/{loan}/entries",
        Methods::Get(Endpoint::OnLoan(LoanEndpoint::ShowEntries)),
    ),
    (
        "/loans/{loan}/approve",
        Methods::Post(Endpoint::OnLoan(LoanEndpoint::Step(PlainStep::Approve))),
    ),
    (
        "/loans/{loan}/reject",
        Methods::Post(Endpoint::OnLoan(LoanEndpoint::Step(PlainStep::Reject))),
    ),
    (
        "/loans/{loan}/withdraw",
        Methods::Post(Endpoint::OnLoan(LoanEndpoint::Step(PlainStep::Withdraw))),
    ),
    (
        "/loans/{loan}/undo-approval",
        Methods::Post(Endpoint::OnLoan(LoanEndpoint::Step(PlainStep::UndoApproval))),
    ),
    (
        "/loans/{loan}/disburse",
        Methods::Post(Endpoint::OnLoan(LoanEndpoint::Disburse)),
    ),
    (
        "/loans/{loan}/repayments",
        Methods::Post(Endpoint::OnLoan(LoanEndpoint::Repay)),
    ),
    (
        "/loans/{loan}/fees",
        Methods::Post(Endpoint::OnLoan(LoanEndpoint::ChargeFee)),
    ),
    (
        "/loans/{loan}/penalties",
        Methods::Post(Endpoint::OnLoan(LoanEndpoint::ChargePenalty)),
    ),
    (
        "/loans/{loan}/waivers",
        Methods::Post(Endpoint::OnLoan(LoanEndpoint::Waive)),
    ),
    (
        "/loans/{loan}/write-off",
        Methods::Post(Endpoint::OnLoan(LoanEndpoint::WriteOff)),
    ),
    (
        "/loans/{loan}/refund",
        Methods::Post(Endpoint::OnLoan(LoanEndpoint::Refund)),
    ),
    (
        "/loans/{loan}/entries/{entry}/reverse",
        Methods::Post(Endpoint::OnLoan(LoanEndpoint::Reverse)),
    ),
    (
        "/offices/{office}/loans/{after}",
        Methods::Get(Endpoint::ListLoans),
    ),
    ("/reports/arrears", Methods::Get(Endpoint::ShowArrears)),
];

fn add(router: &mut Router<Methods>, route: &(&'static str, Methods)) -> Result<(), InsertError>
    requires { takes_route router.old (route.now.0.now, route.now.1) ≡ true }
    ensures added { OnOk result (router.new ≡ with_route router.old (route.now.0.now, route.now.1)) }
    ensures memory { IfErr result (λ e. e ≡ OutOfMemory) }
{
    router.insert(route.0, route.1)
}

/// A router with the routes of a table.
fn router_of(
    alloc: Global,
    table: &[(&'static str, Methods)],
) -> Result<Router<Methods>, InsertError>
    requires { takes_table [] (map (λ r. (r.0.now, r.1)) table.now) ≡ true }
    ensures routes { IfOk result (λ r. r ≡ routes_of (map (λ r. (r.0.now, r.1)) table.now)) }
    ensures memory { IfErr result (λ e. e ≡ OutOfMemory) }
{
    let mut router = Router::new(alloc);
    for route in table {
        add(&mut router, route)?;
    }
    Ok(router)
}

/// The routes of the desk, made once for a run.
#[derive(Drop)]
pub struct Routes {
    router: Router<Methods>,
    ghost all: { router ≡ desk_routes },
}

impl Routes {
    /// The routes of the desk. It fails only when out of memory.
    pub fn new(alloc: Global) -> Result<Routes, InsertError>
        ensures { IfErr result (λ e. e ≡ OutOfMemory) }
    {
        let router = router_of(alloc, ROUTES.as_slice())?;
        Ok(Routes { router })
    }

    /// The route of a path, if it has one. A path that isn't UTF-8 has none.
    pub(crate) fn find<'r, 'p>(&'r self, path: &'p [u8]) -> Option<Match<'r, 'p, &'r Methods>>
        ensures route { option_map matched_route result ≡ route_at path.now }
        ensures path { IfSome result (λ found. found.params.path.now ≡ path.now) }
    {
        let Ok(path) = str::from_utf8(path) else {
            return None;
        };
        match self.router.at(path) {
            Ok(found) => Some(found),
            Err(_) => None,
        }
    }

    /// Whether a path has a route.
    pub fn has(&self, path: &[u8]) -> bool
        ensures { result ≡ is_some (route_at path.now) }
    {
        self.find(path).is_some()
    }
}

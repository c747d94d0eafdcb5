//! Roles as a choice.

ghost use Rattle.std.specs.Prelude.{refl};
ghost use Rattle.mf_office.specs.Roles.{role_name, role_number, roles};
ghost use Rattle.mf_office.specs.declared.staff.Role.TheVariants.{Teller, Officer, Manager};

use crate::staff::Role;
use mf_base::Choice;

impl Choice for Role {
    ghost choices = { roles };

    ghost name_of = { role_name };

    ghost number_of = { role_number };

    fn all() -> &'static [Role] {
        &[Role::Teller, Role::Officer, Role::Manager]
    }

    fn name(self) -> &'static str {
        match self {
            Role::Teller => "teller",
            Role::Officer => "officer",
            Role::Manager => "manager",
        }
    }

    fn number(self) -> u32 {
        self as u32
    }

    ghost told_apart = { elim [ Teller ↦ (refl, refl) | Officer ↦ (refl, refl) | Manager ↦ (refl, refl) ] };
}

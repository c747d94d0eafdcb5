//! The number that comes next where things are numbered from 1.

ghost use Rattle.std.specs.Prelude.{◌≡◌, ◌+◌, ◌<◌, ◌≤◌, Ok};

use mf_base::Fault;

/// The number of the next thing, where so many are used: one more, or F18 where the limit is reached.
/// It takes no memory.
pub fn next_number(used: u32, limit: u32) -> Result<u32, Fault>
    ensures next { used < limit → result ≡ Ok (used + 1) }
    ensures reached { limit ≤ used → result ≡ Err Fault.F18 }
{
    if used < limit {
        Ok(used + 1)
    } else {
        Err(Fault::F18)
    }
}

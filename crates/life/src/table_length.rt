// Which lengths a table of a store may have.
ghost use Rattle.std.specs.Prelude.{◌≡◌, if◌then◌else◌, Some, None};
ghost use Rattle.life.specs.Faults.{allowed_length, length_refused};

use crate::fault::TableFault;

// Whether a table of `n` places is allowed: 1 to `MOST`.
pub fn check_length<const MOST: usize>(n: usize) -> Result<(), TableFault>
    ensures { length_refused result ≡ (if allowed_length MOST n then None else Some 72) }
{
    if (1..=MOST).contains(&n) {
        Ok(())
    } else {
        Err(TableFault::Length)
    }
}

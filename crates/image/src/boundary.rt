ghost use Rattle.std.specs.Prelude.{◌≡◌};
ghost use Rattle.image.specs.Faults.{boundary_fault, check_result, RefusedAs13};

use crate::fault::{Cause, Fault};

/// That the boundary of a split lies from 0 to 8, or the fault that it does not, which is refused with 13.
pub fn check_boundary(boundary: u16) -> Result<(), Fault>
    ensures fault { result ≡ check_result (boundary_fault boundary) }
    ensures refused { RefusedAs13 result }
{
    if boundary > 8 {
        return Err(Cause::BoundaryAbove8.into());
    }
    Ok(())
}

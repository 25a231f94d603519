//! Curves whose functions are a field, with what is computed of them once.

ghost use Rattle.std.specs.Prelude.{◌≡◌, IfOk};

use ff_rr::{Frame, SpaceBasis};
use std::alloc::{AllocError, Global};

/// A curve with the maximal orders of both sides, and its constants with the basis of both orders that they are read
/// from.
#[derive(Drop)]
pub(crate) struct FunctionField {
    pub(crate) frame: Frame,
    pub(crate) constants: SpaceBasis,
}

impl FunctionField {
    /// The same curve with what was computed of it, in memory of its own.
    pub(crate) fn copy(&self, alloc: Global) -> Result<FunctionField, AllocError>
        ensures { IfOk result (λ f. f ≡ self.now) }
    {
        let frame = self.frame.copy(alloc)?;
        let constants = self.constants.copy(alloc)?;
        Ok(FunctionField { frame, constants })
    }
}

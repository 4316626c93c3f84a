// Where a replacement is worked out before it is carried out: its old sizes, and the blob rows after it.
ghost use Rattle.std.specs.Prelude.{◌≡◌, [], IfOk};
ghost use Rattle.table.specs.Held.{held};

use crate::spare::SpareBlobs;
use crate::sums::Sums;
use std::alloc::{AllocError, Global};

#[derive(Drop)]
pub struct Scratch {
    pub sums: Sums,
    pub spare: SpareBlobs,
}

impl Scratch {
    pub fn new(heap: Global) -> Result<Scratch, AllocError>
        ensures { IfOk result (λ s. (held s.sums.rows ≡ []) × (held s.spare.rows ≡ [])) }
    {
        Ok(Scratch {
            sums: Sums::new(heap)?,
            spare: SpareBlobs::new(heap)?,
        })
    }
}

#[cfg(test)]
mod tests {
    use super::*;
    use std::test::Fail;

    #[test]
    fn scratch_is_made_empty(rt: HostRuntime) -> Result<(), Fail> {
        let scratch = Scratch::new(rt.alloc())?;
        assert_eq!(rt; scratch.sums.rows.len(), 0);
        assert_eq!(rt; scratch.spare.rows.len(), 0);
        Ok(())
    }
}

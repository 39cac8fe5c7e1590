// Sealing a plate, and breaking its seal.
ghost use Rattle.std.specs.Prelude.{◌≡◌, Some, None, MatchResult};
ghost use Rattle.plate.specs.Headers.{standing};
ghost use Rattle.plate.specs.Refusals.{seal_refusal};

use crate::{Draft, Refusal, Sealed};

/// A draft that was not sealed, and why.
#[derive(Drop)]
pub struct NotSealed {
    pub draft: Draft,
    pub refusal: Refusal,
}

impl Draft {
    /// Seals the plate, for which both maps have to be current; a draft that is sent back, with 6, is as it was.
    pub fn seal(self) -> Result<Sealed, NotSealed>
        ensures { let refused = seal_refusal (standing self.header) in
            MatchResult result
            (λ sealed. (refused ≡ None) × (standing sealed.header ≡ standing self.header))
            (λ back. (refused ≡ Some back.refusal) × (standing back.draft.header ≡ standing self.header)) }
    {
        if self.header.first && self.header.second {
            return Ok(Sealed {
                header: self.header,
            });
        }
        Err(NotSealed {
            draft: self,
            refusal: Refusal::Outdated,
        })
    }
}

impl Sealed {
    /// Breaks the seal. The maps stay current.
    pub fn break_seal(self) -> Draft
        ensures { standing result.header ≡ standing self.header }
    {
        Draft {
            header: self.header,
        }
    }
}

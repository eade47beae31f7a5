// The command `spec`: a specification in its normal form.
ghost use Rattle.std.specs.Prelude.{◌≡◌, IfOk};
ghost use Rattle.las_top.specs.Findings.{answer_by};
ghost use Rattle.las_top.specs.Spec.{spec_answer};

use crate::finding::{Finding, Refusal};
use las_spec::SpecRefused;
use spec_codec::{read_spec, spec_text};
use std::alloc::{AllocError, Global};

/// What `spec` finds in a document.
pub(crate) fn spec(alloc: Global, bytes: &[u8]) -> Result<Finding, AllocError>
    ensures { IfOk result (λ f. answer_by f ≡ spec_answer bytes.now) }
{
    match read_spec(alloc, bytes) {
        Ok(spec) => Ok(Finding::Text(spec_text(alloc, &spec)?)),
        Err(SpecRefused::Memory) => Err(AllocError),
        Err(refusal) => Ok(Finding::Refused(Refusal::Spec(refusal))),
    }
}

// A specification from the bytes of its document.
ghost use Rattle.std.specs.Prelude.{◌≡◌, ◌≢◌, IfOk, IfErr, Ok, Err};
ghost use Rattle.serde_json.specs.View.{view};
ghost use Rattle.las_spec.specs.declared.refusal.SpecRefused.TheVariants.{Memory};
ghost use Rattle.spec_codec.specs.Readings.{spec_in, spec_of, job_in};

use crate::document::{missing, read_job_written, read_written};
use json_shape::read_json;
use las_spec::{Job, Spec, SpecRefused, job_from, spec_from};
use serde_json::Value;
use std::alloc::Global;

fn spec_in(alloc: Global, value: &Value) -> Result<Spec, SpecRefused>
    ensures ok { IfOk result (λ s. spec_in (view value.now) ≡ Ok s) }
    ensures err { IfErr result (λ e. e ≢ Memory → spec_in (view value.now) ≡ Err e) }
{
    if !value.is_object() {
        return Err(SpecRefused::NotObject);
    }
    match missing(value) {
        Some(field) => Err(SpecRefused::Missing(field)),
        None => spec_from(alloc, read_written(alloc, value)?),
    }
}

/// The specification that a document gives, or its first refusal.
#[tactic(auto, unfolding(crate::specs::Readings::spec_of))]
pub fn read_spec(alloc: Global, bytes: &[u8]) -> Result<Spec, SpecRefused>
    ensures ok { IfOk result (λ s. spec_of bytes.now ≡ Ok s) }
    ensures err { IfErr result (λ e. e ≢ Memory → spec_of bytes.now ≡ Err e) }
{
    match read_json(alloc, bytes)? {
        Some(value) => spec_in(alloc, &value),
        None => Err(SpecRefused::NotJson),
    }
}

/// The job that the value of a document gives, or its first refusal: the shape of one of its members, in the
/// order of their names, or a row of the table that is not on boxes. The member `boxes` is not read.
#[tactic(auto, unfolding(crate::specs::Readings::job_in))]
pub fn read_job(alloc: Global, value: &Value) -> Result<Job, SpecRefused>
    ensures ok { IfOk result (λ j. job_in (view value.now) ≡ Ok j) }
    ensures err { IfErr result (λ e. e ≢ Memory → job_in (view value.now) ≡ Err e) }
{
    let draft = read_job_written(alloc, value)?;
    job_from(alloc, &draft)
}

// The command `check`: the first breach of a document's diagram.
ghost use Rattle.std.specs.Prelude.{◌≡◌, ◌↔◌, IfOk};
ghost use Rattle.grid_box.specs.Breaches.{breach};
ghost use Rattle.las_top.specs.Check.{check_answer};
ghost use Rattle.las_top.specs.Findings.{answer_by};
ghost use Rattle.las_top.specs.Shown.{ShowsValid};
ghost use Rattle.las_top.specs.declared.run.Status.TheVariants.{Good};

use crate::finding::{Finding, Refusal};
use colour_rules::first_bad_colour;
use grid_box::{Broken, Diagram};
use las_spec::Job;
use lasre_codec::{LasreRefused, read_lasre};
use pipe_rules::first_broken;
use std::alloc::{AllocError, Global};

/// The first breach of all rules: those of pipes come before those of colours.
#[tactic(auto, using(crate::proofs::BreachLemmas::pipes_first))]
pub(crate) fn first_breach(job: &Job, diagram: &Diagram) -> Option<Broken>
    requires { diagram.now.size ≡ job.now.size }
    ensures { result ≡ breach job.now diagram.now }
{
    match first_broken(job, diagram) {
        Some(broken) => Some(broken),
        None => first_bad_colour(job, diagram),
    }
}

/// What `check` finds in a document.
pub(crate) fn check(alloc: Global, bytes: &[u8]) -> Result<Finding, AllocError>
    ensures answer { IfOk result (λ f. answer_by f ≡ check_answer bytes.now) }
    ensures exact { IfOk result (λ f. ((answer_by f).status ≡ Good) ↔ ShowsValid bytes.now) }
{
    match read_lasre(alloc, bytes) {
        Ok(document) => match first_breach(&document.job, &document.diagram) {
            Some(broken) => Ok(Finding::Breach(broken)),
            None => Ok(Finding::Valid),
        },
        Err(LasreRefused::Memory) => Err(AllocError),
        Err(refusal) => Ok(Finding::Refused(Refusal::Lasre(refusal))),
    }
}

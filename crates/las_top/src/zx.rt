// The command `zx`: the graph of a document's diagram, with the labels of each flow.
ghost use Rattle.std.specs.Prelude.{◌≡◌, ◌↔◌, ℕ, ◌++◌, ◌<◌, [], None, length, slice_index_or, IfOk, OnOk};
ghost use Rattle.grid_box.specs.PipeRules.{IsValid};
ghost use Rattle.grid_box.specs.Sheets.{Serves};
ghost use Rattle.grid_box.specs.Surfaces.{sheets_of};
ghost use Rattle.lasre_codec.specs.Documents.{IsLasre, lasre_as};
ghost use Rattle.zx_graph.specs.Graphs.{zx_of};
ghost use Rattle.las_top.specs.Findings.{answer_by};
ghost use Rattle.las_top.specs.Headline.{ShowsFlows};
ghost use Rattle.las_top.specs.Shown.{ShowsServed};
ghost use Rattle.las_top.specs.Zx.{flow_texts, zx_text, zx_of_lasre, zx_answer};
ghost use Rattle.las_top.specs.declared.run.Status.TheVariants.{Good};

use crate::audit::first_unserved;
use crate::check::first_breach;
use crate::finding::{Finding, Refusal};
use lasre_codec::{Lasre, LasreRefused, read_lasre};
use sheet_flow::{flow_text, labels_of};
use std::alloc::{AllocError, Global};
use zx_graph::{ZxGraph, graph_of, graph_text};

// Appends the text of each flow, with the labels that its sheets give.
fn push_flows(
    alloc: Global,
    text: &mut Vec<u8>,
    lasre: &Lasre,
    graph: &ZxGraph,
) -> Result<(), AllocError>
    requires graph { graph.now ≡ zx_of lasre.now.job lasre.now.diagram }
    requires valid { IsValid lasre.now.job lasre.now.diagram }
    requires served { (f : ℕ) → f < length lasre.now.job.flows → Serves lasre.now.job lasre.now.diagram (sheets_of lasre.now.sheets f) (slice_index_or lasre.now.job.flows f []) }
    ensures { OnOk result (text.new.items ≡ text.old.items ++ flow_texts lasre.now.diagram lasre.now.sheets 0 lasre.now.job.flows) }
{
    let words = lasre.job.flows();
    for flow in 0..words.len() {
        let labels = labels_of(
            alloc,
            &lasre.job,
            &lasre.diagram,
            graph,
            &lasre.sheets,
            flow,
        )?;
        let lines = flow_text(alloc, flow, &words[flow], &labels)?;
        text.extend_from_slice(&lines)?;
    }
    Ok(())
}

// The text of a diagram's graph, and of each flow.
#[tactic(auto, unfolding(crate::specs::Zx::zx_text))]
fn zx_text(alloc: Global, lasre: &Lasre) -> Result<Vec<u8>, AllocError>
    requires valid { IsValid lasre.now.job lasre.now.diagram }
    requires served { (f : ℕ) → f < length lasre.now.job.flows → Serves lasre.now.job lasre.now.diagram (sheets_of lasre.now.sheets f) (slice_index_or lasre.now.job.flows f []) }
    ensures { IfOk result (λ text. text.items ≡ zx_text (lasre_as lasre.now.job lasre.now.diagram lasre.now.sheets)) }
{
    let graph = graph_of(alloc, &lasre.job, &lasre.diagram)?;
    let mut text = graph_text(alloc, &graph)?;
    push_flows(alloc, &mut text, lasre, &graph)?;
    Ok(text)
}

// What is found of a job, a diagram and sheets.
fn zx_of_lasre(alloc: Global, lasre: &Lasre) -> Result<Finding, AllocError>
    requires { IsLasre (lasre_as lasre.now.job lasre.now.diagram lasre.now.sheets) }
    ensures { IfOk result (λ f. answer_by f ≡ zx_of_lasre (lasre_as lasre.now.job lasre.now.diagram lasre.now.sheets)) }
{
    if let Some(broken) = first_breach(&lasre.job, &lasre.diagram) {
        return Ok(Finding::Breach(broken));
    }
    match first_unserved(lasre) {
        Some((flow, broken)) => Ok(Finding::Unserved(flow, broken)),
        None => Ok(Finding::Text(zx_text(alloc, lasre)?)),
    }
}

/// What `zx` finds in a document.
pub(crate) fn zx(alloc: Global, bytes: &[u8]) -> Result<Finding, AllocError>
    ensures answer { IfOk result (λ f. answer_by f ≡ zx_answer bytes.now) }
    ensures exact { IfOk result (λ f. ((answer_by f).status ≡ Good) ↔ ShowsServed bytes.now) }
    ensures shows { IfOk result (λ f. (answer_by f).status ≡ Good → ShowsFlows bytes.now) }
{
    match read_lasre(alloc, bytes) {
        Ok(lasre) => zx_of_lasre(alloc, &lasre),
        Err(LasreRefused::Memory) => Err(AllocError),
        Err(refusal) => Ok(Finding::Refused(Refusal::Lasre(refusal))),
    }
}

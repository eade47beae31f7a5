//! Flows of a ZX graph, which its labels show: a Pauli at each end of each edge. Callers ask for the first
//! breach of the rules F1 to F5 that labels obey for a word, and there is none exactly where they show the
//! flow. Each rule is a small test of one edge, port or node. The crate knows nothing of diagrams and of
//! sheets.
#![tactic(auto)]

ghost use Rattle.std.specs.Prelude.{◌≡◌, ◌↔◌, ◌<◌, ◌^◌, None, length};
ghost use Rattle.zx_flow.specs.Flows.{Labelled, bad_label};

mod ends;
pub mod examples;
mod labels;
pub mod laws;
mod rules;

pub use labels::Labels;
use las_base::Kind;
use las_spec::FlowWord;
use rules::{first_bad_edge, first_bad_port, first_bad_spider, first_bad_y_end};
use zx_graph::ZxGraph;

/// A rule of labels that is broken, and the number of the edge (rule 1), port (rule 2) or node (rules 3, 4
/// and 5) where it is.
#[derive(Clone, Copy, PartialEq, Eq, Debug)]
pub struct BadLabel {
    pub rule: u8,
    pub place: u32,
}

// The first breach, rule by rule.
fn first_broken(graph: &ZxGraph, labels: &Labels, word: &FlowWord) -> Option<BadLabel>
    requires { length word.now < 2 ^ 32 }
    ensures { result ≡ bad_label graph.now labels.now word.now }
{
    if let Some(place) = first_bad_edge(graph, labels) {
        return Some(BadLabel { rule: 1, place });
    }
    if let Some(place) = first_bad_port(graph, labels, word) {
        return Some(BadLabel { rule: 2, place });
    }
    if let Some(place) = first_bad_y_end(graph, labels) {
        return Some(BadLabel { rule: 3, place });
    }
    if let Some(place) = first_bad_spider(Kind::Z, graph, labels) {
        return Some(BadLabel { rule: 4, place });
    }
    if let Some(place) = first_bad_spider(Kind::X, graph, labels) {
        return Some(BadLabel { rule: 5, place });
    }
    None
}

/// The first breach of the rules of labels for a word: of the least rule, and among these at the least
/// place. A word has a letter for each port; behind the end of one that is too short no port is looked at.
/// It takes time in proportion to the nodes times the edges, and no memory.
pub fn first_bad_label(graph: &ZxGraph, labels: &Labels, word: &FlowWord) -> Option<BadLabel>
    requires one_each { length labels.now ≡ length graph.now.edges }
    requires word { length word.now < 2 ^ 32 }
    ensures first { result ≡ bad_label graph.now labels.now word.now }
    ensures none { (result ≡ None) ↔ Labelled graph.now labels.now word.now }
{
    first_broken(graph, labels, word)
}

#[cfg(test)]
mod tests;

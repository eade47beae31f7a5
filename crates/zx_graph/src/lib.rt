//! The ZX graph of a diagram: a node for each cell with legs, which is a port, a Y end or a spider, and an
//! edge for each pipe, a Hadamard edge where the pipe has a domain wall. Callers see a graph as its list of
//! nodes, numbered in the order of their cells, and its list of edges, numbered by axis and then by low
//! cell. The crate knows nothing of sheets and of flows.
#![tactic(auto)]

pub mod examples;
mod graph;
pub mod laws;
mod nodes;
mod text;

pub use graph::{Edge, ZxGraph, graph_of};
pub use nodes::{Node, NodeSort};
pub use text::graph_text;

#[cfg(test)]
mod tests;

//! Correlation surfaces and flows: the labels that sheets give, and the sheets that labels give. Sheets
//! that serve a flow give labels that obey the rules for its word, and labels that obey give sheets that
//! serve; so for a valid diagram there are sheets exactly where its graph has the flow, with walls, Y ends,
//! turns and junctions, pipes between two ports, and parts that touch no port. The crate knows nothing of
//! documents.
#![tactic(auto)]

pub mod examples;
mod labels;
pub mod laws;
mod sheets;
mod text;

pub use labels::labels_of;
pub use sheets::sheets_of;
pub use text::flow_text;

//! What became of the nodes in a run, and what is written of its events: the feed, the tree and the summary.
#![tactic(auto)]

mod counts;
mod feed;
mod node_places;
mod printed;
mod results;
mod summary;
mod summary_lines;
mod tally;
mod theme;
mod to_writer;
mod told;
mod tree_drawing;

pub use feed::{feed_text, push_feed_line};
pub use results::{Results, summary_text, tree_text};
pub use summary::Summary;
pub use theme::Theme;
pub use to_writer::{WriteFault, print_to};
pub use told::{NodeEvents, node_events, tells_failure};

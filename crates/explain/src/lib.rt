//! Why classes stay at run time, and what became of the others.
#![tactic(auto)]

mod bearers;
mod blamed;
mod calls;
mod chain_lines;
mod chains;
mod costs;
mod counting;
mod cycles;
mod evidences;
mod explaining;
mod lines;
mod marks;
mod nearest;
mod overview;
mod paths;
mod reason_lines;
mod reruns;
mod run_lines;
mod search;
mod sizes;
mod stops;
mod words;

pub use blamed::Blamed;
pub use chains::chain_of;
pub use costs::{Cost, costs_of, dearest_first};
pub use explaining::{Explanation, Knowledge};
pub use lines::{all_text, class_text};
pub use marks::{ShownMark, ShownMarks};
pub use overview::Overview;
pub use reruns::{Rerun, run_again};
pub use run_lines::cost_text;
pub use sizes::region_size;
pub use stops::stop_within;

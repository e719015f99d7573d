//! The commands of the program `preinit`, over a caller's files and streams.
//!
//! [`command`] does one command for the words after the program's name and answers the exit status;
//! [`line`] reads the words alone. [`run_class_files`] leads from class files' bytes to what is seen, and
//! [`entries_of`], [`linked_program`] and [`thread_lines`] are steps of a run. What a file, a stream or a terminal
//! gives or takes is outside every contract: the tests show it.
#![tactic(auto)]

pub mod any_order;
mod auditing;
mod build_texts;
mod builds;
mod by_threads;
mod class_files;
mod cures;
mod entries;
pub mod existence;
mod explaining;
mod fault;
mod files;
mod first_steps;
mod image_build;
mod image_replay;
mod image_run;
mod inspecting;
pub mod laws;
mod lazy;
mod left_out;
mod lists;
mod meanings;
mod outputs;
mod pages;
mod renewing;
mod reporting;
mod requested;
mod run;
mod running;
mod standing;
mod status;
mod telling;
mod threads;
mod totals;
mod untold;
mod watching;

pub use building::{BuildFault, BuildOptions, Built};
pub use builds::{build, build_here};
pub use class_files::linked_program;
pub use command_line::{
    Audit, Build, Building, Explain, Inspect, Lazy, Renew, Replay, Report, Request, Run,
    WordsFault, line,
};
pub use entries::entries_of;
pub use fault::CommandFault;
pub use files::{FileCause, FileFault, Files};
pub use image_build::{GREATEST_LENGTH, build_image};
pub use image_reader::ImageFault;
pub use image_replay::{ImageReplay, replay_image};
pub use image_run::{ImageRun, run_image};
pub use init_engine::Rest;
pub use inspecting::inspected_image;
pub use lazy::{LazyRun, Shown, run_class_files};
pub use renewing::renewed_image;
pub use run::{CommandEnd, Held, command, command_holding};
pub use running::{CutShort, Ran, run_world};
pub use status::{Status, status_of};
pub use threads::thread_lines;
pub use watching::{Stage, Unwatched, Watch};

//! A build as one page of HTML, with nothing loaded from elsewhere: totals, pictures of waves, reasons and dependences,
//! and a table of all classes that can be sorted and searched.
#![tactic(auto)]

mod bars;
mod counts;
mod drawing;
mod escaping;
mod forest;
mod look;
mod pages;
mod rows;
mod totals;
mod uses_picture;

pub use pages::page;

//! The page of a report: one HTML file with why the machine died, the records, and a picture of the image, without
//! scripts and outside resources.
//!
//! A page is a list of pieces: its own text, which is `'static` and so never comes from an image, numbers, times, and
//! foreign bytes and logs, which are written escaped.
#![tactic(auto, using(crate::proofs::PartSums::split))]

mod before;
mod block_runs;
mod byte_rows;
mod causes;
mod died;
mod ended;
mod escaping;
mod facts;
mod groups;
mod laws;
mod listed;
mod logs;
mod names;
mod order;
mod page;
mod parameters;
mod picture;
mod pieces;
mod reads;
mod region;
mod spots;
mod style;
mod warnings;
mod words;
mod zone_rows;

pub use escaping::push_escaped;
pub use laws::{
    a_log_is_its_lines, each_dump_is_counted_once, escaped_is_text, six_blocks_make_four_runs,
    the_newest_come_first,
};
pub use page::html;
pub use pieces::{Piece, render};

//! A page of HTML about runs over cases side by side, of one tested peer or of many: a row for each case and a column
//! for each peer. Titles, scripts and rules are texts that are given.
//!
//! The layers above use the contract of `page_text`, for what is written.
#![tactic(auto)]

mod cell_html;
mod escaping;
mod head_html;
pub mod laws;
mod marks;
mod named_text;
mod page;
mod panel_html;
mod row_html;
mod short_name;
mod style;
mod table;
mod total_html;

pub use named_text::{NamedText, text_named};
pub use page::page_text;
pub use table::PageTexts;

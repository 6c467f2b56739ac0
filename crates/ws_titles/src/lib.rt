//! The titles of the cases: in a few words of ASCII, what each case tries.
//!
//! The layers above use the contract of `title_of`, for the title that a name has, that of `group_titles`, and the law
//! that each case has a title.
#![tactic(auto)]

mod groups;
pub mod laws;
mod lookup;
mod table;

pub use groups::group_titles;
pub use lookup::title_of;
pub use table::Title;

// The public calls for one page of the plan and for the pages from a given one on.
#![tactic(auto)]

mod lines;
mod page;
mod pages;
mod text;

pub use page::{page_numbers, page_of};
pub use pages::{PagesValues, pages_numbers, pages_of};

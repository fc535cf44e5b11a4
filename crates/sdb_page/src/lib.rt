//! The order of a Select's items, and how its answer is cut into pages.
#![tactic(auto)]

mod counting;
mod finding;
mod kept;
mod laws;
mod page;
mod paging;
mod passing;
mod place;
mod showing;
mod total;

pub use laws::{
    answers_rise, items_fit_on_a_page, pages_are_longest, pages_join, pages_of_a_select_join,
    positions_are_small,
};
pub use page::Page;
pub use paging::{select, walk};
pub use place::is_keyed;

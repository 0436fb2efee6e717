//! Links between highlight groups, and the styles of groups.
//!
//! A group shows in the end what its chain of links leads to. Each group has a link or none, a style
//! or none, and whether a link of it was ever taken away, which shuts out a `default` command.
#![tactic(auto)]

mod highlight;
mod links;
mod usual;

pub use highlight::{Highlight, Style};
pub use links::{Links, MOST_LINKS};

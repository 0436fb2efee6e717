//! The parts of a syntax.
use char_class::Sets;
use keyword_table::Keywords;
use pattern_match::Programs;
use syntax_set::{Clusters, ItemSet};

/// The parts of a syntax that painting asks.
#[derive(Clone, Copy)]
pub struct Parts<'a> {
    pub items: &'a ItemSet,
    pub clusters: &'a Clusters,
    /// The patterns of the items, each under its number.
    pub programs: &'a Programs,
    pub keywords: &'a Keywords,
    pub sets: &'a Sets,
}

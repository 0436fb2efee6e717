//! By what lines are painted.

use std::alloc::Global;
use syn_reader::Syntax;

/// By what lines are painted: a syntax, and the most ticks of an attempt.
#[derive(Drop)]
pub(crate) struct Brush<'a> {
    pub(crate) alloc: Global,
    pub(crate) syntax: &'a Syntax,
    pub(crate) budget: u64,
}

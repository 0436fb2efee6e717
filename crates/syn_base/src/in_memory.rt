//! The outside in memory, for tests and for callers that hold their bytes: it tells all that it
//! holds, and fails at the calls whose numbers it is given.

pub(crate) mod files;
pub(crate) mod sink;
pub(crate) mod source;

//! The outside of the machine, over std: files, a reader and a writer. They tell nothing of their
//! bytes, and are the edge at which proofs end.

pub(crate) mod files;
pub(crate) mod sink;
pub(crate) mod source;

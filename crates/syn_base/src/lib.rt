//! What every layer shares: places and spans, lists, texts as their lines, lines looked at, the
//! outside as three traits, and the count of painted lines.
//!
//! A contract sees a type of this crate by what it stands for: a list, a file map, the bytes
//! written so far, a number. What the outside can't promise is optional there: a real file tells
//! nothing of its bytes, and a file in memory tells all of them.
#![tactic(auto)]

mod class;
mod externals;
mod host;
mod in_memory;
mod lines;
mod list;
mod looked;
mod outside;
mod places;
mod steps;
mod want_of_memory;
mod writing;

pub use class::Class;
pub use externals::Externals;
pub use host::files::HostFiles;
pub use host::sink::StdSink;
pub use host::source::StdSource;
pub use in_memory::files::MemoryFiles;
pub use in_memory::sink::MemorySink;
pub use in_memory::source::MemorySource;
pub use lines::{Colours, Lines};
pub use list::List;
pub use looked::Looked;
pub use outside::{Fetched, Files, Put, Sink, Source, Taken};
pub use places::{GroupId, ItemId, PatternId, Place, Span};
pub use steps::{Ledger, NoLedger, Steps};
pub use want_of_memory::Memory;
pub use writing::put_all;

//! A painted text as a page (Vim's `:TOhtml`).
//!
//! The page shows each span in the class of its final group, and has one style line for each final
//! group that it shows and that has a style, in order of first use. `specs/Page.antt` says it byte by
//! byte. The bytes are appended to one buffer, so a page costs what it writes.
#![tactic(auto)]

mod characters;
mod document;
mod lines;
mod numbers;
mod shown;
mod styles;

pub use document::page;

/// What a page is asked to be.
#[derive(Clone, Copy, Debug, PartialEq, Eq)]
pub struct PageOptions {
    /// Whether lines begin with their numbers.
    pub number: bool,
    /// Whether the lines stand in a `<pre>` element.
    pub pre: bool,
}

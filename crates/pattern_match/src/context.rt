//! What an attempt is made with, beside the text.
use char_class::Sets;
use syn_base::Externals;

/// What an attempt is made with, beside the text.
#[derive(Clone, Copy)]
pub struct Context<'a> {
    /// Whether case is ignored where the pattern doesn't say so itself (`:syn-case`).
    pub ignore: bool,
    /// The sets that classes go by.
    pub sets: &'a Sets,
    /// The texts of `\z1` to `\z9` (`:syn-ext-match`).
    pub externals: &'a Externals,
}

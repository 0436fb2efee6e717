//! A text that is painted: its lines, and what was noted of each line when it was painted.
//!
//! What is kept is always the painting of the text from its first line on, by the rules alone. An
//! edit paints a line only where it isn't reusable: where it is new, where its painting looked at a
//! replaced line, where it moved and its painting looked at its number, or where another state stands
//! before it. So an edit costs the lines to paint, and not the text; which lines it tells, and whether
//! it is refused, is as if all were painted anew.
#![tactic(auto)]

mod brush;
mod change;
mod commit;
mod edit;
mod edit_walk;
mod kept;
mod laws;
mod line;
mod painted;
mod reach;
mod refusal;
mod repeat;
mod shown;
mod walk;

pub use laws::{another_syntax_tells_what_shows_otherwise, what_shows_the_same_is_not_told};
pub use painted::{Painted, Repainted, SyntaxRefused, Unpainted};
pub use refusal::EditError;

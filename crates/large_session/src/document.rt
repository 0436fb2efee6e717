//! A painted text whose spans can be counted.
ghost use Rattle.std.specs.Prelude.{◌≡◌, length, IfOk};
ghost use Rattle.std.specs.List.{sum_by};

use edit_session::Document;
use syn_base::Memory;

/// A painted text that edits change, and that tells how many spans it has.
pub trait LargeDocument: Document {
    /// How many spans the lines have together. No more can be counted than there are addresses.
    fn span_count(&self) -> Result<usize, Memory>
        ensures { IfOk result (λ count. count ≡ sum_by length (Self.shown self.now)) };
}

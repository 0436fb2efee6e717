//! The items of the frames that have a known end.
ghost use Rattle.std.specs.Prelude.{◌≡◌, true};
ghost use Rattle.state_stack.specs.Enders.{ends_by, is_among};

use crate::Frame;
use syn_base::ItemId;

/// The items of the frames that have a known end, if they are few; else any item may have such a
/// frame.
#[derive(Clone, Copy)]
pub enum Enders {
    /// No frame has one.
    Nothing,
    /// Frames of this item alone.
    One(ItemId),
    /// Frames of these two.
    Two(ItemId, ItemId),
    /// Frames of these three.
    Three(ItemId, ItemId, ItemId),
    /// Of more items: of which isn't known.
    Many,
}

impl Enders {
    /// Whether an item may have a frame with a known end.
    fn has(self, item: ItemId) -> bool
        ensures { result ≡ is_among self item }
    {
        match self {
            Enders::Nothing => false,
            Enders::One(a) => a.0 == item.0,
            Enders::Two(a, b) => a.0 == item.0 || b.0 == item.0,
            Enders::Three(a, b, c) => a.0 == item.0 || b.0 == item.0 || c.0 == item.0,
            Enders::Many => true,
        }
    }

    /// These and one more.
    #[tactic(auto, using(crate::proofs::EnderLaws::is_own, crate::proofs::EnderLaws::or_other))]
    fn with(self, item: ItemId) -> Enders
        ensures own { is_among result item ≡ true }
        ensures kept { (j : ItemId) → is_among self j ≡ true → is_among result j ≡ true }
    {
        if self.has(item) {
            return self;
        }
        match self {
            Enders::Nothing => Enders::One(item),
            Enders::One(a) => Enders::Two(item, a),
            Enders::Two(a, b) => Enders::Three(item, a, b),
            _ => Enders::Many,
        }
    }

    /// These and that of one more frame, if its end is known.
    pub(crate) fn over(self, frame: &Frame) -> Enders
        ensures own { ends_by result frame.now ≡ true }
        ensures kept { (j : ItemId) → is_among self j ≡ true → is_among result j ≡ true }
    {
        if frame.known_end.is_none() {
            self
        } else {
            self.with(frame.item)
        }
    }
}

//! Which items are allowed on a stack.
ghost use Rattle.std.specs.Prelude.{◌≡◌, length, reverse};
ghost use Rattle.item_pick.specs.Common.{is_body, container_of, is_allowed, Fits, admits, ChoiceFits, is_clear, IsItem, ItemId, rules_by};

use crate::choice::Choice;
use crate::picking::Picking;
use paint_rules::Part;
use state_stack::{Frame, Stack};
use syn_base::{ItemId, Lines};

impl<T: Lines> Picking<'_, T> {
    /// Whether a frame is passed over for what lies below it.
    fn is_clear(&self, frame: &Frame) -> bool
        requires { IsItem (rules_by self.now.asked.now) (frame.now).item }
        ensures { result ≡ is_clear (rules_by self.now.asked.now) frame.now }
    {
        let item = self.item(frame.item);
        is_body(frame) && item.transparent && item.contains.is_none()
    }

    /// The item of the container.
    fn container(&self, stack: &Stack) -> Option<ItemId>
        requires { Fits (length (rules_by self.now.asked.now).items) (reverse stack.now) }
        ensures { result ≡ container_of (rules_by self.now.asked.now) (reverse stack.now) }
    {
        let (frame, below) = stack.top_and_below()?;
        if self.is_clear(frame) {
            self.container(below)
        } else {
            Some(frame.item)
        }
    }

    /// The items that are allowed on a stack (`:syn-contains`).
    pub(crate) fn allowed(&self, stack: &Stack) -> Choice
        requires { Fits (length (rules_by self.now.asked.now).items) (reverse stack.now) }
        ensures allowed { (i : ItemId) →
            is_allowed (rules_by self.now.asked.now) (reverse stack.now) i
            ≡ admits (rules_by self.now.asked.now) result i }
        ensures fits { ChoiceFits (rules_by self.now.asked.now) result }
    {
        match stack.top_and_below() {
            None => Choice::Within(None),
            Some((frame, _)) => {
                if is_body(frame) {
                    Choice::Within(self.container(stack))
                } else {
                    Choice::NoItem
                }
            }
        }
    }
}

/// Whether a frame is of a match, or of what lies between a region's start and end.
fn is_body(frame: &Frame) -> bool
    ensures { result ≡ is_body (frame.now).part }
{
    match frame.part {
        Part::Body => true,
        _ => false,
    }
}

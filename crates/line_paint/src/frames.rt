//! Stacks of which some frames were made anew.
ghost use Rattle.std.specs.Prelude.{◌≡◌, ◌<◌, ◌∷◌, length, reverse, IfOk, None};
ghost use Rattle.std.specs.Option.{option_map};
ghost use Rattle.line_paint.specs.Common.{top_searched, FramesCome, MaySearch, frame_or, frames_or, rest_or, items_of};

use crate::ends::{Occasion, searched};
use crate::{Site, Stop};
use item_pick::PickMemory;
use state_stack::{Frame, Stack};
use std::alloc::Global;
use syn_base::{Looked, Memory};

/// A stack that was made anew, or a copy of the one that stays.
pub(crate) fn stack_or(stays: &Stack, anew: Option<Stack>) -> Result<Stack, Memory>
    ensures { IfOk result (λ s. reverse s ≡ frames_or (reverse stays.now) anew) }
{
    match anew {
        None => stays.copy(),
        Some(stack) => Ok(stack),
    }
}

/// A stack of which the top frame, or frames below it, were made anew; none where it stays.
#[inline(never)]
fn remade(
    alloc: Global,
    top: &Frame,
    below: &Stack,
    frame: Option<Box<Frame>>,
    rest: Option<Stack>,
) -> Result<Option<Stack>, Memory>
    requires room { length below.now < 1000 }
    requires items { items_of (frames_or (reverse below.now) rest) ≡ items_of (reverse below.now) }
    ensures { IfOk result
        (λ s. frames_or (top.now ∷ reverse below.now) s
        ≡ frame_or top.now (option_map (λ b. b.value) frame)
        ∷ frames_or (reverse below.now) rest) }
{
    match rest {
        None => match frame {
            None => Ok(None),
            Some(frame) => Ok(Some(below.with_top(alloc, Box::into_inner(frame))?)),
        },
        Some(rest) => {
            let frame = match frame {
                None => top.copied()?,
                Some(frame) => Box::into_inner(frame),
            };
            Ok(Some(rest.with_top(alloc, frame)?))
        }
    }
}

/// A stack whose top frame searches its end on an occasion, over the frames below it, of which some
/// may be made anew; none where all stay.
pub(crate) fn top_searched<S: Site>(
    site: &S,
    memory: &mut PickMemory,
    on: Occasion,
    stack: &Stack,
    rest: Option<Stack>,
    looked: &mut Looked,
) -> Result<Option<Stack>, Stop>
    requires may { MaySearch S.here S.stands site.now memory.old stack.now }
    requires items { items_of (rest_or (reverse stack.now) rest)
        ≡ items_of (rest_or (reverse stack.now) None) }
    ensures comes { FramesCome (reverse stack.now) result looked.old looked.new
        (top_searched (S.here site.now) on (reverse stack.now) rest) }
    ensures memory { S.stands site.now memory.new }
{
    match stack.top_and_below() {
        None => Ok(None),
        Some((top, below)) => {
            let frame = searched(site, memory, top, on, looked)?;
            if frame.is_none() && rest.is_none() {
                return Ok(None);
            }
            Ok(remade(site.alloc(), top, below, frame, rest)?)
        }
    }
}

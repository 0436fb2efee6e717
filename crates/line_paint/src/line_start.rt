//! The start of a line: frames whose ends aren't known search them.
ghost use Rattle.std.specs.Prelude.{◌≡◌, reverse};
ghost use Rattle.line_paint.specs.Common.{below_if, line_start_of, FramesCome, MaySearch};

use crate::ends::Occasion;
use crate::frames::top_searched;
use crate::kinds::may_search;
use crate::{Site, Stop};
use item_pick::PickMemory;
use state_stack::Stack;
use syn_base::Looked;

/// What a stack becomes at the start of a line, or the frames below its top; none where all stay.
/// Frames search down to the first with `extend`, the bottom one first.
pub(crate) fn line_start<S: Site>(
    site: &S,
    memory: &mut PickMemory,
    is_top: bool,
    stack: &Stack,
    looked: &mut Looked,
) -> Result<Option<Stack>, Stop>
    requires may { MaySearch S.here S.stands site.now memory.old stack.now }
    ensures comes { FramesCome (reverse stack.now) result looked.old looked.new
        (line_start_of (S.here site.now) is_top (reverse stack.now)) }
    ensures memory { S.stands site.now memory.new }
{
    match stack.top_and_below() {
        None => Ok(None),
        Some((top, below)) => {
            let on = Occasion::LineStart { is_top };
            if !goes_on(site, is_top, !site.item(top.item).extend, below) {
                return top_searched(site, memory, on, stack, None, looked);
            }
            let rest = line_start(site, memory, false, below, looked)?;
            top_searched(site, memory, on, stack, rest, looked)
        }
    }
}

/// Whether the frames below one search too, where that is wanted. The kinds of a stack are asked
/// once, below its top.
fn goes_on<S: Site>(site: &S, is_top: bool, wanted: bool, below: &Stack) -> bool
    ensures { below_if (S.here site.now) result (reverse below.now) ≡ below_if (S.here site.now) wanted (reverse below.now) }
{
    if is_top {
        may_search(site, wanted, below)
    } else {
        wanted
    }
}

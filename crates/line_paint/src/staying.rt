//! How long nothing closes or starts.
ghost use Rattle.std.specs.Prelude.{◌≡◌, ◌<◌, ◌≤◌, ℕ, [], false, length, reverse, IfOk, None};
ghost use Rattle.line_paint.specs.Common.{this_line, standing_of, IsAt, IsQuiet, At, done, is_reached, close_once, Fits};
ghost use Rattle.paint_rules.specs.States as rule;

use crate::Site;
use crate::standing::Standing;
use item_pick::PickMemory;
use paint_rules::Spot;
use region_ends::kept_end_over;
use state_stack::Stack;
use syn_base::Memory;

/// A column before which an end isn't reached in the painted line: that of the end, or the line's
/// length, where the end isn't in it.
fn reached_from(end: Option<Spot>, len: usize) -> usize
    ensures { (d : ℕ) → d < result → is_reached (At 0 d) end ≡ false }
{
    match end {
        Some(Spot::Past) => 0,
        Some(Spot::At { ahead: 0, col }) => col,
        _ => len,
    }
}

/// A column before which nothing closes, where nothing changes until there: that of the top's kept
/// end, or the line's end.
fn closes_from<S: Site>(site: &S, stack: &Stack, is_over: bool) -> usize
    requires { Fits (length (S.here site.now).rules.items) (reverse stack.now) }
    ensures { (d : ℕ) → d < result → (s : rule.Standing) → s.is_over ≡ is_over
        → close_once (S.here site.now) d s (reverse stack.now) ≡ done None }
{
    if is_over {
        return site.len();
    }
    match stack.top_and_below() {
        None => site.len(),
        Some((top, below)) => reached_from(kept_end_over(site.items(), top, below), site.len()),
    }
}

/// A column from `c` on, up to the line's end, before which all from `c` on are quiet. No other line
/// than those so far is looked at.
pub(crate) fn quiet_until<S: Site>(
    site: &S,
    memory: &mut PickMemory,
    c: usize,
    standing: &Standing,
) -> Result<usize, Memory>
    requires memory { S.stands site.now memory.old }
    requires at { IsAt (S.here site.now) c standing.now }
    requires none_tried { standing.now.tried ≡ [] }
    ensures memory { S.stands site.now memory.new }
    ensures quiet { IfOk result (λ to. (d : ℕ) → c ≤ d → d < to
        → IsQuiet (S.here site.now) standing.now.looked d (standing_of standing.now)) }
    ensures from { IfOk result (λ to. c ≤ to) }
    ensures to { IfOk result (λ to. to ≤ length (this_line (S.here site.now))) }
{
    if standing.state.waiting.is_some() {
        return Ok(c);
    }
    let closes = closes_from(site, &standing.state.stack, standing.is_over);
    if closes <= c {
        return Ok(c);
    }
    let starts = site.starts_from(memory, c, closes, standing)?;
    Ok(closes.min(starts))
}

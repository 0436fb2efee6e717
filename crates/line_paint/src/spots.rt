//! Spots: places counted from the painted line.
ghost use Rattle.std.specs.Prelude.{◌≡◌};
ghost use Rattle.line_paint.specs.Common.{spot_of, is_reached, goes_beyond};

use crate::Site;
use paint_rules::Spot;
use region_ends::is_before;
use syn_base::Place;

/// A place of the text, counted from the painted line.
pub(crate) fn spot_of<S: Site>(site: &S, place: Place) -> Spot
    ensures { result ≡ spot_of (S.here site.now) place }
{
    let line = site.line();
    if place.line < line {
        Spot::Past
    } else {
        Spot::At {
            ahead: place.line - line,
            col: place.col,
        }
    }
}

/// Whether an end isn't after a place.
pub(crate) fn is_reached(place: Spot, end: Option<Spot>) -> bool
    ensures { result ≡ is_reached place end }
{
    match end {
        None => false,
        Some(end) => !is_before(place, end),
    }
}

/// Whether an end lies beyond a place.
pub(crate) fn goes_beyond(place: Spot, end: Option<Spot>) -> bool
    ensures { result ≡ goes_beyond place end }
{
    match end {
        None => false,
        Some(end) => is_before(place, end),
    }
}

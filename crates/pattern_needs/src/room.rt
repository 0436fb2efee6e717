//! How many ways and ticks a part has at most, by how many characters are left of its line.
ghost use Rattle.std.specs.Prelude.{◌≡◌, ◌+◌, IfSome};
ghost use Rattle.pattern_needs.specs.Growths.{total};
ghost use Rattle.pattern_needs.specs.LineCosts.{Cost, endless, limited, nothing, unlimited};

use crate::growth::Growth;

/// How many ways and ticks a part has at most, by how many characters are left of its line.
#[derive(Clone, Copy)]
pub(crate) struct Room {
    pub(crate) ways: Growth,
    pub(crate) cost: Growth,
}

/// What stays where it is, with no tick.
pub(crate) fn still() -> Room
    ensures { total result ≡ (λ f. f) }
{
    Room {
        ways: Growth::one(),
        cost: Growth::none(),
    }
}

/// One tick, and one way at most.
pub(crate) fn single() -> Room
    ensures { total result ≡ (λ f left. 1 + f left) }
{
    Room {
        ways: Growth::one(),
        cost: Growth::one(),
    }
}

/// A part, and another behind each of its ways.
pub(crate) fn then_room(a: Room, b: Room) -> Option<Room>
    ensures { IfSome result (λ room. total room ≡ (λ f. total a (total b f))) }
{
    Some(Room {
        ways: Growth::none().and_each(&a.ways, &b.ways)?,
        cost: a.cost.and_each(&a.ways, &b.cost)?,
    })
}

/// One part or another.
pub(crate) fn or_room(a: Room, b: Room) -> Option<Room>
    ensures { IfSome result (λ room. total room ≡ (λ f left. total a f left + total b f left)) }
{
    Some(Room {
        ways: a.ways.and_each(&Growth::one(), &b.ways)?,
        cost: a.cost.and_each(&Growth::one(), &b.cost)?,
    })
}

/// What is tried up to the first way.
pub(crate) fn first_room(a: Room) -> Room
    ensures { total result ≡ (λ f left. total a nothing left + f left) }
{
    Room {
        ways: Growth::one(),
        cost: a.cost,
    }
}

/// So many turns at most, of which some may be left out.
pub(crate) fn limited_room(a: Room, free: u32, turns: u32) -> Option<Room>
    ensures { IfSome result (λ room. total room ≡ limited (total a) free turns) }
{
    let mut all = still();
    for turn in 0..turns {
        all = then_room(a, all)?;
        if turn < free {
            all = or_room(all, still())?;
        }
    }
    Some(all)
}

/// A count without a limit, of a part with one way.
pub(crate) fn endless_room(least: u32, a: Room) -> Option<Room>
    ensures { IfSome result (λ room. total room ≡ unlimited (total a) least) }
{
    if !a.ways.is_one() {
        return None;
    }
    let vain = if least == 0 { Growth::none() } else { a.cost };
    Some(Room {
        ways: Growth::each(),
        cost: vain.and_each(&Growth::each(), &a.cost)?,
    })
}

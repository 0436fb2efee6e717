//! How many ways and ticks a part has at most, by whether it begins before a blank.
//!
//! Of the ways over some blanks one alone stands behind all of them, and what follows seldom begins with a
//! blank. So ways before a blank are counted apart from others.
ghost use Rattle.std.specs.Prelude.{◌≡◌, ◌+◌, ◌*◌, Some, IfSome};
ghost use Rattle.pattern_needs.specs.Spreads.{anywhere, or_spread, or_spreads, over_blanks, still, then_spread, then_spreads};

/// From one kind of places: ticks, and ways that end before blanks and elsewhere.
#[derive(Clone, Copy)]
pub(crate) struct Spread {
    pub(crate) cost: u64,
    pub(crate) blanks: u64,
    pub(crate) others: u64,
}

/// From before a blank, and from elsewhere.
#[derive(Clone, Copy)]
pub(crate) struct Spreads {
    pub(crate) blank: Spread,
    pub(crate) other: Spread,
}

/// So many of one and so many of another.
fn both(many: u64, one: u64, more: u64, other: u64) -> Option<u64>
    ensures { IfSome result (λ r. r ≡ many * one + more * other) }
{
    many.checked_mul(one)?.checked_add(more.checked_mul(other)?)
}

/// Ways, and a part behind each of them.
fn then_spread(a: Spread, t: Spreads) -> Option<Spread>
    ensures { IfSome result (λ r. r ≡ then_spread a t) }
{
    let cost = both(a.blanks, t.blank.cost, a.others, t.other.cost)?;
    Some(Spread {
        cost: a.cost.checked_add(cost)?,
        blanks: both(a.blanks, t.blank.blanks, a.others, t.other.blanks)?,
        others: both(a.blanks, t.blank.others, a.others, t.other.others)?,
    })
}

/// A part, and another behind each of its ways.
pub(crate) fn then_spreads(s: Spreads, t: Spreads) -> Option<Spreads>
    ensures { IfSome result (λ r. r ≡ then_spreads s t) }
{
    Some(Spreads {
        blank: then_spread(s.blank, t)?,
        other: then_spread(s.other, t)?,
    })
}

/// Some ways or others.
fn or_spread(a: Spread, b: Spread) -> Option<Spread>
    ensures { IfSome result (λ r. r ≡ or_spread a b) }
{
    Some(Spread {
        cost: a.cost.checked_add(b.cost)?,
        blanks: a.blanks.checked_add(b.blanks)?,
        others: a.others.checked_add(b.others)?,
    })
}

/// One part or another.
pub(crate) fn or_spreads(s: Spreads, t: Spreads) -> Option<Spreads>
    ensures { IfSome result (λ r. r ≡ or_spreads s t) }
{
    Some(Spreads {
        blank: or_spread(s.blank, t.blank)?,
        other: or_spread(s.other, t.other)?,
    })
}

/// What stays where it is.
pub(crate) fn still(cost: u64) -> Spreads
    ensures { result ≡ still cost }
{
    Spreads {
        blank: Spread {
            cost,
            blanks: 1,
            others: 0,
        },
        other: Spread {
            cost,
            blanks: 0,
            others: 1,
        },
    }
}

/// As many blanks as there are.
pub(crate) fn over_blanks(most: u64) -> Option<Spreads>
    ensures { IfSome result (λ r. r ≡ over_blanks most) }
{
    Some(Spreads {
        blank: Spread {
            cost: most.checked_add(1)?,
            blanks: most,
            others: 1,
        },
        other: Spread {
            cost: 1,
            blanks: 0,
            others: 1,
        },
    })
}

/// Ways that end anywhere.
pub(crate) fn anywhere(ways: u64, cost: u64) -> Spread
    ensures { result ≡ anywhere ways cost }
{
    Spread {
        cost,
        blanks: ways,
        others: ways,
    }
}

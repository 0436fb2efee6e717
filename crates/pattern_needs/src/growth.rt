//! Numbers that grow with what is left of a line.
ghost use Rattle.std.specs.Prelude.{◌≡◌, ◌+◌, ◌*◌, ℕ, suc, IfSome, IsTrue};
ghost use Rattle.pattern_needs.specs.Growths.{chosen, fewer, grown, once};
ghost use Rattle.pattern_needs.specs.LineCosts.{Cost};

/// How many numbers a growth has: so many counts without a limit may stand behind one another.
const MANY: usize = 8;

/// A number for each count of characters that are left: one that stays the same, one for each character, one
/// for each two of them, and so on.
#[derive(Clone, Copy)]
pub(crate) struct Growth {
    pub(crate) by: [u64; 8],
}

impl Growth {
    /// None at all.
    pub(crate) fn none() -> Growth
        ensures { (f : Cost) (left : ℕ) → grown result.by f left ≡ 0 }
    {
        Growth { by: [0; 8] }
    }

    /// One, however many are left.
    pub(crate) fn one() -> Growth
        ensures { (f : Cost) (left : ℕ) → grown result.by f left ≡ f left }
    {
        Growth {
            by: [1, 0, 0, 0, 0, 0, 0, 0],
        }
    }

    /// One here, and one for each character that is left.
    pub(crate) fn each() -> Growth
        ensures { (f : Cost) (left : ℕ) → grown result.by f left ≡ f left + fewer f left }
    {
        Growth {
            by: [1, 1, 0, 0, 0, 0, 0, 0],
        }
    }

    /// Whether it is one, however many are left.
    pub(crate) fn is_one(&self) -> bool
        ensures { IsTrue result → (f : Cost) (left : ℕ) → grown self.now.by f left ≡ f left }
    {
        self.by == [1, 0, 0, 0, 0, 0, 0, 0]
    }

    /// So much, and some more in each of so many ways; none where a number is too large.
    pub(crate) fn and_each(&self, ways: &Growth, more: &Growth) -> Option<Growth>
        ensures { IfSome result (λ all. (f : Cost) (left : ℕ) →
            grown all.by f left ≡ grown self.now.by f left + grown ways.now.by (grown more.now.by f) left) }
    {
        let mut all = Growth::none();
        let mut at = MANY;
        while at > 0 {
            at -= 1;
            all = next(self.by[at], &all, ways.by[at], more)?;
        }
        Some(all)
    }

    /// What it is where so many characters are left; none where a number is too large.
    pub(crate) fn at(&self, left: u64) -> Option<u64>
        ensures { IfSome result (λ n. n ≡ grown self.now.by once left) }
    {
        let mut sum: u64 = 0;
        let mut known = Some(1);
        for k in 0..MANY {
            let many = self.by[k];
            if many > 0 {
                sum = sum.checked_add(many.checked_mul(known?)?)?;
            }
            known = choose_more(known, left, k);
        }
        Some(sum)
    }
}

/// So much, with what there is for all places with fewer left, and so many times more; none where a number
/// is too large.
fn next(first: u64, all: &Growth, ways: u64, more: &Growth) -> Option<Growth>
    ensures { IfSome result (λ r. (f : Cost) (left : ℕ) → grown r.by f left
        ≡ (first * f left + grown all.now.by (fewer f) left) + ways * grown more.now.by f left) }
{
    let mut by = [0; 8];
    let mut before = first;
    for k in 0..MANY {
        by[k] = before.checked_add(ways.checked_mul(more.by[k])?)?;
        before = all.by[k];
    }
    if before == 0 {
        Some(Growth { by })
    } else {
        None
    }
}

/// In how many ways one more can be chosen of so many, by those for so many as are chosen.
fn choose_more(known: Option<u64>, left: u64, k: usize) -> Option<u64>
    ensures { IfSome known (λ n. n ≡ chosen k left) → IfSome result (λ n. n ≡ chosen (suc k) left) }
{
    let already = k as u64;
    let more = known?.checked_mul(left.saturating_sub(already))?;
    Some(more / already.checked_add(1)?)
}

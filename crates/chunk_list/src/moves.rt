//! Elements that move within vectors and between them. None of it takes memory.
ghost use Rattle.std.specs.Prelude.{◌≡◌, ◌+◌, ◌<◌, ◌≤◌, [], ◌++◌, length, take, drop, vec_capacity, vec_len};

/// Puts the elements of another vector, for which there is room, at the end.
pub(crate) fn join<T: Drop>(items: &mut Vec<T>, more: &mut Vec<T>)
    requires { length items.old.items + length more.old.items ≤ vec_capacity items.old }
    ensures items { items.new.items ≡ items.old.items ++ more.old.items }
    ensures room { vec_capacity items.old ≤ vec_capacity items.new }
{
    let _ = items.append(more);
}

/// The `mid` elements from `from` on go behind those that follow them.
pub(crate) fn turn<T>(items: &mut Vec<T>, from: usize, mid: usize)
    requires { from + mid ≤ length items.old.items }
    ensures items { items.new.items ≡ take from items.old.items
        ++ (drop mid (drop from items.old.items) ++ take mid (drop from items.old.items)) }
    ensures room { vec_capacity items.new ≡ vec_capacity items.old }
    ensures len { vec_len items.new ≡ vec_len items.old }
{
    items[from..].rotate_left(mid);
}

/// Takes out the elements from `from` up to, and without, `to`.
pub(crate) fn cut<T: Drop>(items: &mut Vec<T>, from: usize, to: usize)
    requires { from ≤ to }
    ensures items { items.new.items ≡ take from items.old.items ++ drop to items.old.items }
    ensures room { vec_capacity items.new ≡ vec_capacity items.old }
{
    let end = to.min(items.len());
    if from < end {
        cut_within(items, from, end);
    }
}

/// The same where all of these elements stand.
fn cut_within<T: Drop>(items: &mut Vec<T>, from: usize, to: usize)
    requires ordered { from ≤ to }
    requires inside { to ≤ length items.old.items }
    ensures items { items.new.items ≡ take from items.old.items ++ drop to items.old.items }
    ensures room { vec_capacity items.new ≡ vec_capacity items.old }
{
    turn(items, from, to - from);
    let left = items.len() - (to - from);
    items.truncate(left);
}

/// The elements of a vector from `at` on go to another one, which has room for them.
pub(crate) fn turn_over<T>(from: &mut Vec<T>, to: &mut Vec<T>, at: usize)
    requires inside { at ≤ length from.old.items }
    requires blank { to.old.items ≡ [] }
    requires room { length from.old.items ≤ vec_capacity to.old }
    ensures front { from.new.items ≡ take at from.old.items }
    ensures back { to.new.items ≡ drop at from.old.items }
    ensures room_from { vec_capacity from.new ≡ vec_capacity from.old }
    ensures room_to { vec_capacity to.new ≡ vec_capacity to.old }
{
    'items: while from.len() > at {
        let x = from.take_last();
        to.push_reserved(x);
    }
    to.reverse();
}

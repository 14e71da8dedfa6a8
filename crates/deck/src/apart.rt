// Looking for elements that clash: all pairs are compared only where sorted neighbours meet. A sorted list is kept in place of a
// set: a set would want for memory with each element.
ghost use Rattle.std.specs.Prelude.{◌≤◌, length};

use crate::rules::{Apart, OnCard, latest};
use reserved::Reserved;

// The keys of the elements, in order.
fn sort_in<X: Apart, const N: usize>(keys: &mut Reserved<X::Key, N>, xs: &[OnCard<X>])
    requires { length xs.now ≤ N }
{
    keys.all.clear();
    for x in xs {
        if let Some(key) = x.what.key() {
            keys.all.push_reserved(key);
        }
    }
    keys.all.sort_unstable();
}

// The smallest card of an element that clashes with an earlier one. `keys` is room to sort in.
pub(crate) fn first_clash<X: Apart, const N: usize>(
    keys: &mut Reserved<X::Key, N>,
    xs: &[OnCard<X>],
) -> Option<u16>
    requires { length xs.now ≤ N }
{
    sort_in(keys, xs);
    let keys = keys.all.as_slice();
    let mut neighbours = keys.iter().zip(keys.iter().skip(1));
    if neighbours.any(|(a, b)| X::keys_meet(*a, *b)) {
        latest(xs)
    } else {
        None
    }
}

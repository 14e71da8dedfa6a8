// A name, and the name that it becomes.
ghost use Rattle.std.specs.Prelude.{◌≡◌, length};

use card::Name;

#[derive(Clone, Copy)]
pub(crate) struct Pair {
    pub(crate) old: Name,
    pub(crate) new: Name,
    ghost sized: { length new.bytes ≡ 8 },
}

// Not derived: a derive knows nothing of `sized`.
impl Default for Pair {
    fn default() -> Pair {
        Pair {
            old: Name::blank(),
            new: Name::blank(),
        }
    }
}

// Names that are changed.
ghost use Rattle.std.specs.Prelude.{◌≡◌, map};
ghost use Rattle.layer.specs.Renamed.{renaming, pair_new, renamed, bad_pair};

use crate::pair::Pair;
use card::Name;

// The new name of the pair with that old name.
fn new_name(pairs: &[Pair], old: Name) -> Option<Name>
    ensures { result ≡ pair_new old pairs.entry.now }
{
    pairs
        .iter()
        .find(|pair| pair.old == old)
        .map(|pair| pair.new)
}

// What a name becomes.
#[tactic(auto, using(crate::proofs::Told::pair_new_is))]
pub(crate) fn rename(pairs: &[Pair], name: Name) -> Name
    ensures { result ≡ renamed (map renaming pairs.entry.now) name }
{
    new_name(pairs, name).unwrap_or(name)
}

// Whether a pair has a blank name, or an old name that is there already.
#[tactic(auto, using(crate::proofs::Told::pair_new_is))]
pub(crate) fn is_bad(pairs: &[Pair], old: Name, new: Name) -> bool
    ensures { result ≡ bad_pair (map renaming pairs.entry.now) (record { old = old; new = new }) }
{
    old.is_blank() || new.is_blank() || new_name(pairs, old).is_some()
}

// The tables inside layers: at most so many elements, in the layer itself.
ghost use Rattle.std.specs.Prelude.{◌≡◌};
ghost use Rattle.library.specs.Answers.{answer_by};
ghost use Rattle.layer.specs.Additions.{fault_of, table_after};

use arrayvec::ArrayVec;
use library::LibraryFault;

// Puts an element behind the others. Refused where no place is left, then where the element is bad; a refusal changes nothing.
pub(crate) fn add<T: Copy, const N: usize>(
    table: &mut ArrayVec<T, N>,
    element: T,
    bad: bool,
) -> Result<(), LibraryFault>
    ensures answer { result ≡ answer_by (fault_of N table.old.items bad) }
    ensures table { table.new.items ≡ table_after (fault_of N table.old.items bad) table.old.items element }
{
    if table.len() >= N {
        return Err(LibraryFault::TableFull);
    }
    if bad {
        return Err(LibraryFault::BadName);
    }
    table.push(element);
    Ok(())
}

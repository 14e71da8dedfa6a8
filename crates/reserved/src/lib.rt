// Lists in memory that was reserved once: adding to one cannot want for memory.
#![tactic(auto)]

ghost use Rattle.std.specs.Prelude.{◌≡◌, ◌≤◌, [], vec_len, vec_capacity, IfOk};

use std::alloc::{AllocError, Global};

// A list of at most N elements, and room for that many. Who changes `all` keeps to both.
#[derive(Drop)]
pub struct Reserved<T, const N: usize> {
    pub all: Vec<T>,
    ghost room: { N ≤ vec_capacity all },
    ghost few: { vec_len all ≤ N },
}

impl<T, const N: usize> Reserved<T, N> {
    // Reserves the room; the list is empty.
    pub fn new(heap: Global) -> Result<Reserved<T, N>, AllocError>
        ensures { IfOk result (λ list. list.all.items ≡ []) }
    {
        Ok(Reserved {
            all: Vec::with_capacity(heap, N)?,
        })
    }
}

#[cfg(test)]
mod tests {
    use super::Reserved;
    use std::test::Fail;

    #[test]
    fn reserves(rt: HostRuntime) -> Result<(), Fail> {
        let mut list = Reserved::<u32, 3>::new(rt.alloc())?;
        assert_eq!(rt; list.all.len(), 0);
        list.all.push_reserved(7);
        assert_eq!(rt; list.all.as_slice(), [7].as_slice());
        Ok(())
    }
}

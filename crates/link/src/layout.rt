// Where the sections of a deck go.
ghost use Rattle.std.specs.Prelude.{◌≡◌, ◌≤◌, length};
ghost use Rattle.link.specs.Layout.{fitted, left};

use crate::homes::{Extent, Home, Homes};
use crate::lines::Dictionary;
use crate::taken::Shift;
use card::Item;
use deck::OnCard;

// What is free of an area: the bytes from one address up to the area's end.
#[derive(Clone, Copy)]
pub(crate) struct Free {
    pub(crate) next: u32,
    pub(crate) limit: u32,
}

impl Free {
    // Takes so many bytes from the next multiple of 8 on; none where they end past the limit.
    pub(crate) fn take(&mut self, length: u32) -> Option<Extent>
        ensures answer { result ≡ fitted self.old.next length self.old.limit }
        ensures free { self.new ≡ left self.old (fitted self.old.next length self.old.limit) }
    {
        let start = (self.next as u64 + 7) / 8 * 8;
        let end = start + length as u64;
        if end > self.limit as u64 {
            return None;
        }
        self.next = end as u32;
        Some(Extent {
            start: start as u32,
            end: end as u32,
        })
    }
}

// Lays the kept sections out in item order; gives the address behind the last, or the card of the first that ends past the limit.
pub(crate) fn lay_out(
    homes: &mut Homes,
    items: &[OnCard<Item<usize>>],
    dictionary: &Dictionary,
    free: Free,
) -> Result<u32, u16>
    requires { length items.now ≤ 1536 }
{
    let mut free = free;
    homes.all.clear();
    for item in items {
        let mut home = Home {
            extent: None,
            shift: Shift::Known(0),
        };
        if let Item::Section {
            name,
            address,
            length,
        } = item.what
            && dictionary.keeps(name)
        {
            let extent = free.take(length).ok_or(item.card)?;
            home.extent = Some(extent);
            home.shift = Shift::Known(extent.start.wrapping_sub(address));
        }
        homes.all.push_reserved(home);
    }
    Ok(free.next)
}

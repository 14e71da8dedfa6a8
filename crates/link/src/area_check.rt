// Making an area.
ghost use Rattle.std.specs.Prelude.{◌≡◌, ◌+◌, ◌≤◌, true, false, MatchResult};
ghost use Rattle.link.specs.Areas.{origin_or, good_area};
ghost use Rattle.link.specs.declared.fault.LinkFault.TheVariants.{BadArea};

use crate::fault::LinkFault;
use crate::limits::Area;

// Where a program starts if no origin is given.
const ORIGIN: u32 = 0;

// Whether an origin and a size make an area.
fn is_good(origin: u32, size: u32) -> bool
    ensures { result ≡ good_area origin size }
{
    origin % 8 == 0 && size % 8 == 0 && origin as u64 + size as u64 <= 1048576
}

impl Area {
    // The area of a size from an origin on; refused where either is no multiple of 8 or their sum passes 1,048,576.
    pub fn new(origin: Option<u32>, size: u32) -> Result<Area, LinkFault>
        ensures { MatchResult result
            (λ a. (good_area (origin_or origin) size ≡ true) × (a.origin ≡ origin_or origin) × (a.size ≡ size))
            (λ f. (good_area (origin_or origin) size ≡ false) × (f ≡ BadArea)) }
    {
        let origin = origin.unwrap_or(ORIGIN);
        if !is_good(origin, size) {
            return Err(LinkFault::BadArea);
        }
        Ok(Area { origin, size })
    }

    // The address behind the area's last byte.
    pub(crate) fn end(&self) -> u32
        ensures value { result ≡ self.now.origin + self.now.size }
        ensures few { result ≤ 1048576 }
    {
        self.origin + self.size
    }
}

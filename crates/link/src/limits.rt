// The area that a program is linked into.
ghost use Rattle.std.specs.Prelude.{◌≡◌, ◌+◌, ◌%◌, ◌≤◌};

// An origin and a size in bytes: multiples of 8, and together at most 1,048,576.
#[derive(Clone, Copy)]
pub struct Area {
    pub(crate) origin: u32,
    pub(crate) size: u32,
    ghost origin_on: { origin % 8 ≡ 0 },
    ghost size_on: { size % 8 ≡ 0 },
    ghost fits: { origin + size ≤ 1048576 },
}

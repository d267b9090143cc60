// What the steps of a run have in common: its numbers and tables, and the ring that holds the window.

ghost use Rattle.std.specs.Prelude.{◌<◌, ◌≤◌, length};

use crate::Params;

// What a run goes by: its numbers and its filled tables. How far the tables reach, and of what shape they are, is no ghost field: the calls ask different things of them.
#[derive(Clone, Copy)]
pub struct Setup<'a> {
    pub params: Params,
    pub ln: &'a [f64],
    pub f: &'a [f64],
}

// The window's entries in their ring: `len` of them, the oldest at `head`.
// Window counts and scan counts are not in it: most calls read one and write the other, and some are lent only one.
// That it has an entry is asked where one is read: the first letter finds it empty. That scan counts are cleared is asked where it has to be so: they change in every call.
#[derive(Clone, Copy)]
pub struct Ring<'a> {
    pub queue: &'a [u32],
    pub head: usize,
    pub len: usize,
    ghost head_in: { head < length queue.now },
    ghost len_in: { len ≤ length queue.now },
    ghost small: { length queue.now ≤ 65535 },
}

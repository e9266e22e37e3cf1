// Three texts at once, each at the start of a buffer of its own.
ghost use Rattle.std.specs.Prelude.{◌++◌, take};
ghost use Rattle.number.specs.Place.{Wrote};
ghost use Rattle.text_buffer.specs.Three.{ThreeRoom};

use crate::buffer::put_buffer;

// How many bytes each of them has.
#[derive(Clone, Copy)]
pub struct Three {
    pub first: usize,
    pub second: usize,
    pub third: usize,
}

// All three end to end, at a place of the lent slice; the next place is answered.
pub fn put_three(out: &mut [u8], at: usize, a: &[u8], b: &[u8], c: &[u8], long: Three) -> usize
    requires { ThreeRoom out.old at a.now b.now c.now long }
    ensures { Wrote out.old out.new at (take long.first a.now
        ++ (take long.second b.now ++ take long.third c.now)) result }
{
    let second = put_buffer(out, at, a, long.first);
    let third = put_buffer(out, second, b, long.second);
    put_buffer(out, third, c, long.third)
}

// Values that are written as blocks of bytes, and a row of them, one right behind the other.
ghost use Rattle.std.specs.Prelude.{◌≡◌, ℕ, ◌+◌, ◌*◌, ◌≤◌, List, length};
ghost use Rattle.image.specs.Blocks.{Each, row, written};

// What is written as a block: so many bytes for each value of the type.
pub(crate) trait Block: Copy {
    ghost WIDTH: { ℕ };

    ghost bytes: { Self → List ℕ };

    const WIDTH: usize;

    fn put(&self, out: &mut [u8], at: usize)
        requires { at + WIDTH ≤ length out.old }
        ensures width { length (bytes self.now) ≡ WIDTH }
        ensures value { out.new ≡ written out.old at (bytes self.now) };
}

// Writes a row of blocks from a place on.
pub(crate) fn put_row<T: Block>(out: &mut [u8], at: usize, blocks: &[T])
    requires { at + length blocks.now * T.WIDTH ≤ length out.old }
    ensures width { Each (λ x. length (T.bytes x) ≡ T.WIDTH) blocks.now }
    ensures value { out.new ≡ written out.old at (row T.bytes blocks.now) }
{
    for (i, x) in blocks.iter().enumerate() {
        x.put(out, at + i * T::WIDTH);
    }
}

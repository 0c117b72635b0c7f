// Numbers, the highest byte first, at a place of a buffer: read and written.
ghost use Rattle.std.specs.Prelude.{◌≡◌, [], ◌∷◌, cond, ◌+◌, ◌*◌, ◌≤◌, ltb, length};
ghost use Rattle.records.specs.Numbers.{number_of, part, bytes_in};
ghost use Rattle.image.specs.Blocks.{written};

// A byte as a longer number: whether it lies between two others is then told without a test of the byte's end.
pub(crate) fn wide(x: u8) -> u32
    ensures { result ≡ x }
{
    x as u32
}

// The numbers of one, two, four and eight bytes from a place on.
pub(crate) fn byte_in(bytes: &[u8], at: usize) -> u8
    requires { at + 1 ≤ length bytes.now }
    ensures { result ≡ number_of (part 1 at bytes.now) }
{
    bytes[at]
}

pub(crate) fn pair_in(bytes: &[u8], at: usize) -> u16
    requires { at + 2 ≤ length bytes.now }
    ensures { result ≡ number_of (part 2 at bytes.now) }
{
    u16::from_be_bytes([bytes[at], bytes[at + 1]])
}

pub(crate) fn word_in(bytes: &[u8], at: usize) -> u32
    requires { at + 4 ≤ length bytes.now }
    ensures { result ≡ number_of (part 4 at bytes.now) }
{
    u32::from_be_bytes([bytes[at], bytes[at + 1], bytes[at + 2], bytes[at + 3]])
}

pub(crate) fn long_in(bytes: &[u8], at: usize) -> u64
    requires { at + 8 ≤ length bytes.now }
    ensures { result ≡ number_of (part 8 at bytes.now) }
{
    (u64::from(word_in(bytes, at)) << 32) | u64::from(word_in(bytes, at + 4))
}

// Write a number over one, two, four and eight bytes from a place on. A store each, and no copy of a slice, which the
// module for machines of 32 bits may not hold (tools/targets/clean.awk).
pub(crate) fn put_byte(out: &mut [u8], at: usize, x: u8)
    requires { at + 1 ≤ length out.old }
    ensures { out.new ≡ written out.old at (bytes_in 1 x) }
{
    out[at] = x;
}

pub(crate) fn put_pair(out: &mut [u8], at: usize, x: u16)
    requires { at + 2 ≤ length out.old }
    ensures { out.new ≡ written out.old at (bytes_in 2 x) }
{
    let [high, low] = x.to_be_bytes();
    out[at] = high;
    out[at + 1] = low;
}

pub(crate) fn put_word(out: &mut [u8], at: usize, x: u32)
    requires { at + 4 ≤ length out.old }
    ensures { out.new ≡ written out.old at (bytes_in 4 x) }
{
    let [a, b, c, d] = x.to_be_bytes();
    out[at] = a;
    out[at + 1] = b;
    out[at + 2] = c;
    out[at + 3] = d;
}

pub(crate) fn put_long(out: &mut [u8], at: usize, x: u64)
    requires { at + 8 ≤ length out.old }
    ensures { out.new ≡ written out.old at (bytes_in 8 x) }
{
    put_word(out, at, (x / 4294967296) as u32);
    put_word(out, at + 4, (x % 4294967296) as u32);
}

// The i-th of a row of numbers of four bytes, for another engine's image; 0 where they are not all there.
// A number: it is public, and its contract says 0.
pub fn number_at(bytes: &[u8], i: u8) -> u32
    ensures { result ≡ cond (ltb (length bytes.now) (i * 4 + 4)) 0 (number_of (part 4 (i * 4) bytes.now)) }
{
    let at = (i as usize) * 4;
    if bytes.len() < at + 4 {
        return 0;
    }
    word_in(bytes, at)
}

// Writes the i-th of a row of numbers of four bytes; a buffer that has no room for it is kept.
pub fn put_number(out: &mut [u8], i: u8, x: u32)
    ensures { out.new ≡ cond (ltb (length out.old) (i * 4 + 4)) out.old (written out.old (i * 4) (bytes_in 4 x)) }
{
    let at = (i as usize) * 4;
    if out.len() < at + 4 {
        return;
    }
    put_word(out, at, x);
}

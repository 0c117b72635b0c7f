// Text put at a place of a buffer: each function answers the place after it. Where the text does not fit, nothing is
// written, and the place is answered as it was. A buffer and a place, not a slice: these contracts are public.
ghost use Rattle.std.specs.Prelude.{◌≡◌, [], ◌∷◌, ◌+◌, ◌≤◌, ◌<◌, length, leb};
ghost use Rattle.text.specs.Glyphs.{Puts, Adds, decimal_of, hex_of, glyph_of, bit_of};

// Whether n bytes from a place on lie within a length.
fn has_room(length: usize, at: usize, n: usize) -> bool
    ensures { result ≡ leb (at + n) length }
{
    at <= length && n <= length - at
}

// One byte.
pub fn put(out: &mut [u8], at: usize, byte: u8) -> usize
    ensures { Puts out.old at (byte ∷ []) out.new result }
{
    text(out, at, &[byte])
}

// The bytes of a text.
pub fn text(out: &mut [u8], at: usize, bytes: &[u8]) -> usize
    ensures { Puts out.old at bytes.now out.new result }
{
    if !has_room(out.len(), at, bytes.len()) {
        return at;
    }
    let end = at + bytes.len();
    out[at..end].copy_from_slice(bytes);
    end
}

// How many decimal digits a number has.
fn digit_count(n: u64) -> usize
    ensures { result ≡ length (decimal_of n) }
{
    match n.checked_ilog10() {
        Some(k) => k as usize + 1,
        None => 1,
    }
}

// The decimal digits of a number, where there is room for all of them. By hand: what std prints goes to a String, which
// has a heap, and this crate rests on no other.
fn digits(out: &mut [u8], at: usize, n: u64) -> usize
    requires { at + length (decimal_of n) ≤ length out.old }
    ensures { Adds out.old at out.new result (decimal_of n) }
{
    if n < 10 {
        return put(out, at, b'0' + n as u8);
    }
    let place = digits(out, at, n / 10);
    put(out, place, b'0' + (n % 10) as u8)
}

// The decimal digits of a number, of which there are at most twenty.
pub fn decimal(out: &mut [u8], at: usize, n: u64) -> usize
    ensures { Puts out.old at (decimal_of n) out.new result }
{
    let count = digit_count(n);
    if !has_room(out.len(), at, count) {
        return at;
    }
    digits(out, at, n)
}

// The hexadecimal digit of a number below 16, in upper case.
fn glyph(d: u8) -> u8
    requires { d < 16 }
    ensures { result ≡ glyph_of d }
{
    if d < 10 { b'0' + d } else { b'A' + (d - 10) }
}

// A byte as two hexadecimal digits.
pub fn hex(out: &mut [u8], at: usize, byte: u8) -> usize
    ensures { Puts out.old at (hex_of byte) out.new result }
{
    text(out, at, &[glyph(byte / 16), glyph(byte % 16)])
}

// 1 or 0.
fn bit(on: bool) -> u8
    ensures { result ≡ bit_of on }
{
    b'0' + u8::from(on)
}

// Three of them.
pub fn bits(out: &mut [u8], at: usize, z: bool, v: bool, c: bool) -> usize
    ensures { Puts out.old at (bit_of z ∷ bit_of v ∷ bit_of c ∷ []) out.new result }
{
    text(out, at, &[bit(z), bit(v), bit(c)])
}

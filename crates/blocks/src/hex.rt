// A byte in hex.
ghost use Rattle.std.specs.Prelude.{◌≡◌, ◌<◌};
ghost use Rattle.blocks.specs.Hex.{digit_of, InHex};

// The digit of a number below 16, in upper case.
// By hand, as in `text`: this crate rests on `records` alone.
fn digit(d: u8) -> u8
    requires { d < 16 }
    ensures { result ≡ digit_of d }
{
    if d < 10 { 48 + d } else { 55 + d }
}

// The two digits of a byte, and the byte that is to follow them.
pub fn pair(byte: u8, next: u8) -> [u8; 3]
    ensures { InHex byte next result }
{
    [digit(byte / 16), digit(byte % 16), next]
}

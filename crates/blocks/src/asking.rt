// A question in bytes: what its head says.
ghost use Rattle.std.specs.Prelude.{◌≡◌, ◌≤◌};
ghost use Rattle.blocks.specs.Asking.{address_in, beside_in, count_in, record_at, EndsAt, is_no_head, Lists};

use records::reading::byte_at;

// The address.
pub(crate) fn address_in(head: &[u8]) -> usize
    ensures { result ≡ address_in head.now }
{
    let a = byte_at(head, 1);
    let b = byte_at(head, 2);
    let c = byte_at(head, 3);
    let d = byte_at(head, 4);
    u32::from_be_bytes([a, b, c, d]) as usize
}

// The argument, or the work address.
pub(crate) fn beside_in(head: &[u8]) -> u16
    ensures { result ≡ beside_in head.now }
{
    let a = byte_at(head, 5);
    let b = byte_at(head, 6);
    u16::from_be_bytes([a, b])
}

// The list's length.
pub(crate) fn count_in(head: &[u8]) -> usize
    ensures { (result ≡ count_in head.now) × (result ≤ 255) }
{
    byte_at(head, 7) as usize
}

// The list, with zeros after it.
pub(crate) fn list_in(head: &[u8]) -> [u16; 255]
    ensures { Lists head.now result }
{
    let mut list = [0u16; 255];
    let count = count_in(head);
    for i in 0..count {
        let a = byte_at(head, 8 + 2 * i);
        let b = byte_at(head, 9 + 2 * i);
        list[i] = u16::from_be_bytes([a, b]);
    }
    list
}

// Where the record begins.
pub(crate) fn record_at(head: &[u8]) -> usize
    ensures { (result ≡ record_at head.now) × (result ≤ 519) }
{
    9 + 2 * count_in(head)
}

// Where it ends, and the head with it; bytes that are not there yet count as 0.
pub fn end_of(head: &[u8]) -> usize
    ensures { EndsAt head.now result }
{
    let from = record_at(head);
    let length = byte_at(head, from - 1);
    from + (length as usize)
}

// Whether it asks for neither a read nor a write, or its length is not what it says.
pub(crate) fn is_no_head(head: &[u8]) -> bool
    ensures { result ≡ is_no_head head.now }
{
    if 1 < byte_at(head, 0) {
        return true;
    }
    head.len() != end_of(head)
}

// The list of task addresses: the place of an address, the address of a task, and whether the list is a good one.
ghost use Rattle.std.specs.Prelude.{◌≡◌};
ghost use Rattle.blocks.specs.Lists.{place_of, address_of, has_repeat, is_bad};

// The longest list.
const MOST_TASKS: usize = 16;

// The first place of an address; the list's length where it is not listed.
// A number: `task_of` reckons from it.
pub(crate) fn place_of(list: &[u16], address: u16) -> usize
    ensures { result ≡ place_of address list.now }
{
    for (i, x) in list.iter().enumerate() {
        if address == *x {
            return i;
        }
    }
    list.len()
}

// The address of a task; 0 for task 0 and for one over the list's length.
// A number: the definition `address_of` is stated so.
pub(crate) fn address_of(list: &[u16], task: u8) -> u16
    ensures { result ≡ address_of list.now task }
{
    if task == 0 {
        return 0;
    }
    let i = (task as usize) - 1;
    if i < list.len() {
        return list[i];
    }
    0
}

// Whether some address stands in it twice.
fn has_repeat(list: &[u16]) -> bool
    ensures { result ≡ has_repeat list.now }
{
    for (i, x) in list.iter().enumerate() {
        let rest = &list[i + 1..];
        if place_of(rest, *x) < rest.len() {
            return true;
        }
    }
    false
}

// Whether it is longer than 16, or has a repeat.
pub(crate) fn is_bad(list: &[u16]) -> bool
    ensures { result ≡ is_bad list.now }
{
    if MOST_TASKS < list.len() {
        return true;
    }
    has_repeat(list)
}

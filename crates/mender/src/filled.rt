// Lines at the front of an array: its first places are taken. Requests, messages and notes stand so.
ghost use Rattle.std.specs.Prelude.{◌≡◌, Bool};
ghost use Rattle.executive.specs.Letters.{all_that};
ghost use Rattle.mender.specs.Filled.{filled_of};

// The first `taken` places are taken.
#[derive(Clone, Copy)]
pub(crate) struct Filled<T, const N: usize> {
    pub(crate) places: [T; N],
    pub(crate) taken: u8,
}

// Of all places those that pass a test, first to last, over free ones.
pub(crate) fn closed_up<T: Copy, F: Fn(T) -> bool>(
    given: [T; 32],
    free: T,
    stays: F,
) -> Filled<T, 32>
    requires { F.IsAlwaysCallable stays }
    ensures { (f : T → Bool) → ((x : T) (b : Bool) → F.post stays x b → b ≡ f x)
        → result ≡ filled_of 32 free (all_that f given) }
{
    let mut places = [free; 32];
    let mut taken: u8 = 0;
    for x in &given {
        if stays(*x) {
            places[taken as usize] = *x;
            taken += 1;
        }
    }
    Filled { places, taken }
}

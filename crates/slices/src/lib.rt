// Slices: filling and copying, proved once for every call.
#![tactic(auto)]

ghost use Rattle.std.specs.Prelude.{◌≡◌, ◌++◌, ◌-◌, length, take, drop, replicate};

pub mod shift;

// One value from k on: the first k elements stay.
pub fn fill_from<T: Copy>(s: &mut [T], k: usize, value: T)
    ensures { s.new ≡ take k s.old ++ replicate (length s.old - k) value }
{
    for i in k..s.len() {
        s[i] = value;
    }
}

// Copies a list to the front of a slice, as far as the slice goes. The loop is the program's own: the library's copy takes slices that may be one, and so
// asks the C library for a function that the archive needs nowhere else.
pub fn copy_front<T: Copy>(list: &[T], out: &mut [T])
    ensures { out.new ≡ take (length out.old) list.now ++ drop (length list.now) out.old }
{
    let n = list.len().min(out.len());
    for i in 0..n {
        out[i] = list[i];
    }
}

// Elements moved up or down within a slice.
ghost use Rattle.std.specs.Prelude.{◌≡◌, ◌++◌, ◌+◌, ◌-◌, ◌≤◌, length, take, drop};

// The elements from `at` to `end` go up by `by` places; the first `by` of them stay also where they were.
pub fn shift_up<T: Copy>(s: &mut [T], at: usize, end: usize, by: usize)
    requires { (at ≤ end) × (end + by ≤ length s.old) }
    ensures { s.new
        ≡ take (at + by) s.old ++ (take (end - at) (drop at s.old) ++ drop (end + by) s.old) }
{
    s.copy_within(at..end, at + by);
}

// The elements from `at + by` to `end` go down by `by` places; the last `by` of them stay also where they were.
pub fn shift_down<T: Copy>(s: &mut [T], at: usize, end: usize, by: usize)
    requires { (at + by ≤ end) × (end ≤ length s.old) }
    ensures { s.new
        ≡ take at s.old ++ (take (end - (at + by)) (drop (at + by) s.old) ++ drop (end - by) s.old) }
{
    s.copy_within(at + by..end, at);
}

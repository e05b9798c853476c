// Arrays read and written at any index: past the end stands what the caller gives, and nothing is set.
#![tactic(auto)]

ghost use Rattle.std.specs.Prelude.{◌≡◌, get_or, set};

// The entry at place i, or `past` past the end.
pub fn at<T: Copy, const N: usize>(v: [T; N], i: u8, past: T) -> T
    ensures { result ≡ get_or v i past }
{
    v.get(i as usize).copied().unwrap_or(past)
}

// The array with x at place i; past the end nothing is set.
pub fn with<T: Copy, const N: usize>(mut v: [T; N], i: u8, x: T) -> [T; N]
    ensures { result ≡ set v i x }
{
    if (i as usize) < N {
        v[i as usize] = x;
    }
    v
}

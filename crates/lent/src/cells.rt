// One element, or a run of them, of a slice of any elements.
ghost use Rattle.std.specs.Prelude.{◌≡◌, ◌+◌, ◌^◌, ◌<◌, length, get_or, set};
ghost use Rattle.std.proofs.lemmas.List.Edits.{sets};

// The element at a place, `none` past the end.
pub fn get_or<T: Copy>(t: &[T], i: usize, none: T) -> T
    ensures { result ≡ get_or t.now i none }
{
    t.get(i).copied().unwrap_or(none)
}

// An element stored at a place, none past the end.
pub fn put<T: Copy>(t: &mut [T], i: usize, v: T)
    ensures { t.new ≡ set t.old i v }
{
    if i < t.len() {
        t[i] = v;
    }
}

// Elements one after the other, as far as they fit.
pub fn put_all<T: Copy>(t: &mut [T], at: usize, elements: &[T])
    requires { at + length elements.now < 2 ^ 64 }
    ensures { t.new ≡ sets t.old at elements.now }
{
    for (i, v) in elements.iter().enumerate() {
        put(t, at + i, *v);
    }
}

// Searching a list of numbers. The whole list is looked at with no test on the way: a vendor number can stand anywhere on it, and a branch that depends on where
// costs more than the rest of a short list.
ghost use Rattle.std.specs.Prelude.{◌≡◌, ◌+◌, ◌≤◌, length};
ghost use Rattle.format.specs.Lookup.{is_on};
ghost use Rattle.format.specs.Inside.Some.{some_is};

// One number a turn.
fn among_few(list: &[u16], x: u16) -> bool
    ensures { result ≡ is_on x list.now }
{
    let mut found = false;
    for n in list {
        found |= *n == x;
    }
    found
}

// Is one of the sixteen numbers from i on x? It compiles to a few instructions on all of them at once.
fn among_sixteen(list: &[u16], i: usize, x: u16) -> bool
    requires { i + 16 ≤ length list.now }
    ensures { result ≡ some_is list.now x i 16 }
{
    (list[i] == x)
        | (list[i + 1] == x)
        | (list[i + 2] == x)
        | (list[i + 3] == x)
        | (list[i + 4] == x)
        | (list[i + 5] == x)
        | (list[i + 6] == x)
        | (list[i + 7] == x)
        | (list[i + 8] == x)
        | (list[i + 9] == x)
        | (list[i + 10] == x)
        | (list[i + 11] == x)
        | (list[i + 12] == x)
        | (list[i + 13] == x)
        | (list[i + 14] == x)
        | (list[i + 15] == x)
}

// Is x on the list? Sixteen numbers a turn; the last sixteen, which may overlap those before, are looked at first.
pub fn on_list(list: &[u16], x: u16) -> bool
    ensures { result ≡ is_on x list.now }
{
    if list.len() < 16 {
        return among_few(list, x);
    }
    let last = list.len() - 16;
    let mut found = among_sixteen(list, last, x);
    let mut i = 0;
    while i < last {
        found = found | among_sixteen(list, i, x);
        i += 16;
    }
    found
}

// Where a text ends: the first zero. Eight bytes a turn, since most of a section's bytes are names.
ghost use Rattle.std.specs.Prelude.{◌≡◌, ◌+◌, ◌≤◌, ◌<◌, length};
ghost use Rattle.attributes.specs.Text.{zero_from};
ghost use Rattle.format.specs.Inside.Some.{some_is};
ghost use Rattle.attributes.specs.Inside.Eight.{here_or, first_zero};

// One byte a turn.
#[tactic(auto, using(crate::proofs::Laws::Text::zero_steps))]
fn zero_in_rest(s: &[u8], from: usize) -> usize
    ensures { result ≡ zero_from s.now from }
{
    let mut i = from;
    while i < s.len() {
        if s[i] == 0 {
            return i;
        }
        i += 1;
    }
    i
}

// Is one of the eight bytes from i on zero?
#[tactic(auto, unfolding(format::specs::Inside::Some::some_is))]
fn zero_in_eight(s: &[u8], i: usize) -> bool
    requires { i + 8 ≤ length s.now }
    ensures { result ≡ some_is s.now 0 i 8 }
{
    (s[i] == 0)
        | (s[i + 1] == 0)
        | (s[i + 2] == 0)
        | (s[i + 3] == 0)
        | (s[i + 4] == 0)
        | (s[i + 5] == 0)
        | (s[i + 6] == 0)
        | (s[i + 7] == 0)
}

// A place where it holds a zero, else a later one. It compiles to no branch.
#[tactic(auto, unfolding(crate::specs::Inside::Eight::here_or))]
fn here_or(s: &[u8], i: usize, later: usize) -> usize
    requires { i < length s.now }
    ensures { result ≡ here_or s.now i later }
{
    if s[i] == 0 { i } else { later }
}

// The place of the first zero among the eight bytes from i on, or the place after them.
#[tactic(auto, unfolding(crate::specs::Inside::Eight::first_zero))]
fn first_of_eight(s: &[u8], i: usize) -> usize
    requires { i + 8 ≤ length s.now }
    ensures { result ≡ first_zero s.now i 8 }
{
    let seventh = here_or(s, i + 7, i + 8);
    let sixth = here_or(s, i + 6, seventh);
    let fifth = here_or(s, i + 5, sixth);
    let fourth = here_or(s, i + 4, fifth);
    let third = here_or(s, i + 3, fourth);
    let second = here_or(s, i + 2, third);
    let first = here_or(s, i + 1, second);
    here_or(s, i, first)
}

// The place of the first zero at or after `from`; one past the last byte, or `from` itself where that lies further, if there is none.
#[tactic(auto, using(crate::proofs::Laws::Eight::eight_steps))]
pub fn zero_from(s: &[u8], from: usize) -> usize
    ensures { result ≡ zero_from s.now from }
{
    let mut i = from;
    while i < s.len() {
        if s.len() - i < 8 {
            return zero_in_rest(s, i);
        }
        if zero_in_eight(s, i) {
            return first_of_eight(s, i);
        }
        i += 8;
    }
    i
}

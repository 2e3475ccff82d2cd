// Entries one after the other. The reader calls itself inside an erased root; the levels still allowed fall at each call.
ghost use Rattle.entries.specs.Inside.Handed.{source_of};
ghost use Rattle.std.specs.Prelude.{◌≤◌};
ghost use Rattle.entries.specs.Walk.{read_tags};
ghost use Rattle.entries.specs.Inside.Promise.{Ready, farthest, WalkRead};

use crate::entry::{Entry, EntryError, Mode, State, read_entry};
use crate::source::Source;

// The entries from a state up to `end`: the Rust's `read_tags`.
pub(crate) fn read_tags(
    r: &Source<'_>,
    rows: &mut [u32],
    attrs: &mut [u32],
    levels: usize,
    mode: Mode,
    end: usize,
    from: State,
) -> Result<State, EntryError>
    requires { Ready r.now.section.now from × (end ≤ farthest) }
    ensures { WalkRead from (read_tags (source_of r.now) r.now.erased levels mode end
        from.attrs from.at) result rows.old rows.new attrs.old attrs.new }
{
    let mut state = from;
    while state.at < end {
        state = match read_entry(r, rows, attrs, levels, mode, state)? {
            Entry::Next(next) => next,
            Entry::Inside(next, endian, inner_end) => {
                let inner = Mode {
                    erased: true,
                    endian,
                };
                read_tags(r, rows, attrs, levels - 1, inner, inner_end, next)?
            }
        };
    }
    Ok(state)
}

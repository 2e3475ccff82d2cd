// An entry's attributes, one after the other, stored as they are read.
ghost use Rattle.entries.specs.Inside.Handed.{source_of};
ghost use Rattle.std.specs.Prelude.{◌≡◌, suc, length, false};
ghost use Rattle.tables.specs.Table.{table};
ghost use Rattle.format.specs.Settings.{plays};
ghost use Rattle.entries.specs.Run.{run_ends, read_run};
ghost use Rattle.entries.specs.Inside.Promise.{RunReady, RunRead};

use crate::source::Source;
use attributes::read::read_attribute;
use attributes::value::Unread;
use format::attribute_kind::HIGH_PC;
use numbers::Endian;
use numbers::number::number_at;
use tables::row::Attr;
use tables::store::put_attr;

// Where reading stopped, how many attributes the table then has, whether a HighPc was among those read.
#[derive(Clone, Copy)]
pub struct AttrsRead {
    pub at: usize,
    pub attrs: usize,
    pub high: bool,
}

// Does the number play the role? 0 stands for absent.
#[tactic(auto, unfolding(format::specs::Settings::plays))]
fn plays_role(role: u16, n: u16) -> bool
    ensures { result ≡ plays role n }
{
    role != 0 && n == role
}

// After a HighPc the first number that is not MwGlobalRef ends the attributes.
#[tactic(auto, unfolding(crate::specs::Run::run_ends, numbers::specs::Value::read_at))]
fn run_ends(global: u16, s: &[u8], e: Endian, high: bool, at: usize) -> bool
    ensures { result ≡ run_ends global s.now e high at }
{
    high && number_at::<u16>(s, at, e).is_some_and(|n| !plays_role(global, n))
}

// The attributes from a place up to `end`, of a root or of an ordinary entry; the table has `attrs` of them before.
pub(crate) fn read_run(
    r: &Source<'_>,
    table: &mut [u32],
    e: Endian,
    root: bool,
    end: usize,
    at: usize,
    attrs: usize,
) -> Result<AttrsRead, Unread>
    requires { RunReady r.now.section.now at attrs }
    ensures { RunRead r.now.section.now at attrs (read_run (source_of r.now) e root end
        (suc (length r.now.section.now)) false at) result table.old table.new }
{
    let mut place = at;
    let mut n = attrs;
    let mut high = false;
    while place < end && !run_ends(r.global, r.section, e, high, place) {
        let read = read_attribute(r.section, place, e, r.vendors)?;
        let attr = Attr {
            number: read.number as u32,
            value: read.value as u32,
        };
        put_attr(table, n, attr);
        n += 1;
        high |= root & (read.number == HIGH_PC);
        place = read.next;
    }
    Ok(AttrsRead {
        at: place,
        attrs: n,
        high,
    })
}

// Fixed words.
ghost use Rattle.digits.specs.Put.{Put};

use lent::cells::put_all;

// Writes the text at the beginning of a line's rest, and answers how many bytes it has.
pub fn write_text(rest: &mut [u8], text: &[u8]) -> usize
    ensures { Put text.now 0 result rest.old rest.new }
{
    put_all(rest, 0, text);
    text.len()
}

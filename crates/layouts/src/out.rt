// Standard output, a buffer at a time. Each function takes how many bytes of the buffer are used and answers how many are used then.
use digits::decimal::write_decimal;
use digits::hex::write_hex;

// What the buffer still has.
pub fn flush(rt: &impl Print, buffer: &[u8], used: usize) {
    if used <= buffer.len() {
        let _ = rt.write_all(&buffer[..used]);
    }
}

// A buffer that is full is written out first.
pub fn put_byte(rt: &impl Print, buffer: &mut [u8], used: usize, b: u8) -> usize {
    if used < buffer.len() {
        buffer[used] = b;
        return used + 1;
    }
    let _ = rt.write_all(buffer);
    if buffer.len() == 0 {
        return 0;
    }
    buffer[0] = b;
    1
}

// Bytes, one after the other.
pub fn put_text(rt: &impl Print, buffer: &mut [u8], used: usize, text: &[u8]) -> usize {
    let mut at = used;
    for &b in text {
        at = put_byte(rt, buffer, at, b);
    }
    at
}

// The first k bytes.
fn put_first(rt: &impl Print, buffer: &mut [u8], used: usize, text: &[u8], k: usize) -> usize {
    if k <= text.len() {
        put_text(rt, buffer, used, &text[..k])
    } else {
        used
    }
}

// A number in decimal.
pub fn put_decimal(rt: &impl Print, buffer: &mut [u8], used: usize, n: u64) -> usize {
    let mut digits = [0u8; 20];
    let k = write_decimal(&mut digits, n);
    put_first(rt, buffer, used, &digits, k)
}

// A number in so many hexadecimal digits.
pub fn put_hex(rt: &impl Print, buffer: &mut [u8], used: usize, n: u64, width: usize) -> usize {
    let mut digits = [0u8; 16];
    let k = write_hex(&mut digits, width, n);
    put_first(rt, buffer, used, &digits, k)
}

// A byte of a name: one that is not printed, or a backslash, as \xNN, so that no name can look like a line.
fn put_letter(rt: &impl Print, buffer: &mut [u8], used: usize, b: u8) -> usize {
    if b >= 0x20 && b <= 0x7e && b != 0x5c {
        return put_byte(rt, buffer, used, b);
    }
    let at = put_text(rt, buffer, used, b"\\x");
    put_hex(rt, buffer, at, b as u64, 2)
}

// A space and a name; nothing where there is none.
pub fn put_name(rt: &impl Print, buffer: &mut [u8], used: usize, name: &[u8]) -> usize {
    if name.len() == 0 {
        return used;
    }
    let mut at = put_byte(rt, buffer, used, 0x20);
    for &b in name {
        at = put_letter(rt, buffer, at, b);
    }
    at
}

// Bytes in hexadecimal, two digits each.
ghost use Rattle.std.specs.Prelude.{◌<◌, ◌≤◌, length};

// The value of a digit in upper case.
fn digit(b: u8) -> u8
    ensures { result < 16 }
{
    if b < b'A' {
        return b % 16;
    }
    (b % 16 + 9) % 16
}

// The bytes that a line has, with `gap` bytes between any two, as many as there is room for: the answer is how many.
pub fn read_bytes(line: &[u8], gap: usize, bytes: &mut [u8]) -> usize
    requires { gap ≤ 1 }
    ensures { result ≤ length bytes.new }
{
    let mut n = 0;
    let mut at = 0;
    while at + 1 < line.len() {
        if bytes.len() <= n {
            return n;
        }
        bytes[n] = digit(line[at]) * 16 + digit(line[at + 1]);
        n += 1;
        at += 2 + gap;
    }
    n
}

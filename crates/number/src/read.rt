// Numbers.
ghost use Rattle.std.specs.Prelude.{◌≡◌, ◌≤◌, length, drop};
ghost use Rattle.number.specs.Numbers.{plain, number_of};

// The number whose digits start at a place and end with the text. It stops at the first byte that is no digit, and where the value grows
// too large: no more digits make it smaller.
#[tactic(auto, using(crate::proofs::Reading::reading))]
fn digits_from(s: &[u8], start: usize) -> Option<u32>
    requires { start ≤ length s.now }
    ensures { result ≡ plain (drop start s.now) }
{
    if s.len() <= start {
        return None;
    }
    let mut value: u64 = 0;
    let mut at = start;
    while at < s.len() {
        let digit = s[at];
        if digit < b'0' {
            return None;
        }
        if b'9' < digit {
            return None;
        }
        value = value * 10 + (digit - b'0') as u64;
        if 4294967295 < value {
            return None;
        }
        at += 1;
    }
    Some(value as u32)
}

// The number that a whole text is, if it is one.
pub fn read_number(s: &[u8]) -> Option<u32>
    ensures { result ≡ number_of s.now }
{
    if s.len() == 0 {
        return None;
    }
    if s[0] == b'+' {
        return digits_from(s, 1);
    }
    digits_from(s, 0)
}

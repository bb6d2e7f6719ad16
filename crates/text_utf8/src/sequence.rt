// The character at a place of a text, as RFC 3629 has it.
ghost use Rattle.std.specs.Prelude.{◌≡◌, ◌+◌, ◌-◌, ◌≤◌, ◌<◌, length, drop};
ghost use Rattle.text_utf8.specs.Utf8.{sequence_of, tails, lead_of};

// What stands at a place of a text.
#[derive(Clone, Copy)]
pub enum Sequence {
    // Nothing: the text ends here.
    End,
    // A character, its code point and how many bytes it takes.
    Good { code: u32, length: usize },
    // No character. The length is that of the longest start of one, 0 where the text ends in it.
    Bad { length: usize },
}

// How many bytes a character has whose first byte is `first`: the number of leading one bits.
fn octets(first: u8) -> usize
    requires { (0xC2 ≤ first) × (first ≤ 0xF4) }
    ensures { result ≡ (lead_of first).octets }
{
    u8::leading_zeros(!first) as usize
}

// What a first byte gives to the code point: its x bits (RFC 3629, section 3).
fn first_bits(first: u8) -> u32
    requires { (0xC2 ≤ first) × (first ≤ 0xF4) }
    ensures { result ≡ first - (lead_of first).mark }
{
    if first < 0xE0 {
        return (first % 32) as u32;
    }
    (first % 16) as u32
}

// The least byte that may follow.
fn second_low(first: u8) -> u8
    requires { (0xC2 ≤ first) × (first ≤ 0xF4) }
    ensures { result ≡ (lead_of first).low }
{
    if first == 0xE0 {
        return 0xA0;
    }
    if first == 0xF0 {
        return 0x90;
    }
    0x80
}

// The greatest byte that may follow.
fn second_high(first: u8) -> u8
    requires { (0xC2 ≤ first) × (first ≤ 0xF4) }
    ensures { result ≡ (lead_of first).high }
{
    if first == 0xED {
        return 0x9F;
    }
    if first == 0xF4 {
        return 0x8F;
    }
    0xBF
}

// The bytes after the first one, which stands at `at`.
fn tails_at(s: &[u8], at: usize, octets: usize, least: u8, greatest: u8, bits: u32) -> Sequence
    requires at_in_bounds { at < length s.now }
    requires octets_nonzero { (0 < octets) × (octets ≤ 4) × (bits < 32) }
    requires le_least { (0x80 ≤ least) × (greatest ≤ 0xBF) }
    ensures { result ≡ tails (octets - 1) least greatest bits 1 (drop (at + 1) s.now) }
{
    let mut low = least;
    let mut high = greatest;
    let mut code = bits;
    let mut taken: usize = 1;
    while taken < octets {
        if s.len() - at <= taken {
            return Sequence::Bad { length: 0 };
        }
        let b = s[at + taken];
        if b < low {
            return Sequence::Bad { length: taken };
        }
        if high < b {
            return Sequence::Bad { length: taken };
        }
        code = code * 64 + (b - 0x80) as u32;
        low = 0x80;
        high = 0xBF;
        taken += 1;
    }
    Sequence::Good {
        code,
        length: taken,
    }
}

// The character at a place of a text.
pub fn sequence_at(s: &[u8], at: usize) -> Sequence
    ensures { result ≡ sequence_of (drop at s.now) }
{
    if s.len() <= at {
        return Sequence::End;
    }
    let first = s[at];
    if first < 0x80 {
        return Sequence::Good {
            code: first as u32,
            length: 1,
        };
    }
    if first < 0xC2 {
        return Sequence::Bad { length: 1 };
    }
    if 0xF4 < first {
        return Sequence::Bad { length: 1 };
    }
    let n = octets(first);
    tails_at(
        s,
        at,
        n,
        second_low(first),
        second_high(first),
        first_bits(first),
    )
}

// White space: ten ranges of code points.
ghost use Rattle.std.specs.Prelude.{◌≡◌, true};
ghost use Rattle.text_white.specs.White.{is_white, in_ranges, rising};

// The first and the last code point of each range, in order.
const WHITE: [u32; 20] = [
    0x9, 0xD, 0x20, 0x20, 0x85, 0x85, 0xA0, 0xA0, 0x1680, 0x1680, 0x2000, 0x200A, 0x2028, 0x2029,
    0x202F, 0x202F, 0x205F, 0x205F, 0x3000, 0x3000,
];

// Whether a code point stands in one of the ranges of a table in order: no later range can hold one that is below this range's start.
fn in_ranges(table: &[u32], code: u32) -> bool
    requires { rising table.now ≡ true }
    ensures { result ≡ in_ranges table.now code }
{
    let mut i = 0;
    while i + 1 < table.len() {
        if code < table[i] {
            return false;
        }
        if code <= table[i + 1] {
            return true;
        }
        i += 2;
    }
    false
}

// Whether a code point is white space.
pub fn is_white(code: u32) -> bool
    ensures { result ≡ is_white code }
{
    in_ranges(&WHITE, code)
}

// White space and structural characters (RFC 8259, section 2).
ghost use Rattle.std.specs.Prelude.{◌≡◌, ◌≤◌, length, drop};
ghost use Rattle.json_grammar.specs.Reader.{is_ws, structural};
ghost use Rattle.json_string.specs.Inner.Means.{Means};
ghost use Rattle.json_values.specs.Inner.Runs.{Past};

// Whether a byte is white space.
pub fn is_space(b: u8) -> bool
    ensures { result ≡ is_ws b }
{
    if b == b' ' {
        return true;
    }
    if b == b'\t' {
        return true;
    }
    if b == b'\n' {
        return true;
    }
    b == b'\r'
}

// The first place from `start` on at which no white space stands.
pub fn skip_space(s: &[u8], start: usize) -> usize
    requires { start ≤ length s.now }
    ensures { Past is_ws s.now start result }
{
    let mut at = start;
    while at < s.len() {
        if is_space(s[at]) {
            at += 1;
            continue;
        }
        return at;
    }
    at
}

// A structural character, with the white space before and after it.
pub fn structural_at(s: &[u8], at: usize, character: u8) -> Option<usize>
    requires { at ≤ length s.now }
    ensures { Means s.now result (structural character (drop at s.now)) }
{
    let place = skip_space(s, at);
    if s.len() <= place {
        return None;
    }
    if s[place] != character {
        return None;
    }
    Some(skip_space(s, place + 1))
}

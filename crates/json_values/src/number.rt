// Numbers, by the grammar alone (RFC 8259, section 6).
ghost use Rattle.std.specs.Prelude.{◌≤◌, length, drop};
ghost use Rattle.json_grammar.specs.Reader.{is_digit, is_sign, is_minus, digits, int, frac, exp, json_number};
ghost use Rattle.json_string.specs.Inner.Means.{Means};
ghost use Rattle.json_values.specs.Inner.Runs.{Past, PastOne};

// The first place from `start` on at which no digit stands.
fn past_digits(s: &[u8], start: usize) -> usize
    requires { start ≤ length s.now }
    ensures { Past is_digit s.now start result }
{
    for at in start..s.len() {
        if s[at] < b'0' {
            return at;
        }
        if b'9' < s[at] {
            return at;
        }
    }
    s.len()
}

// At least one digit.
fn digits_at(s: &[u8], at: usize) -> Option<usize>
    requires { at ≤ length s.now }
    ensures { Means s.now result (digits (drop at s.now)) }
{
    if s.len() <= at {
        return None;
    }
    if s[at] < b'0' {
        return None;
    }
    if b'9' < s[at] {
        return None;
    }
    Some(past_digits(s, at + 1))
}

// A zero, or digits that begin with none.
fn int_at(s: &[u8], at: usize) -> Option<usize>
    requires { at ≤ length s.now }
    ensures { Means s.now result (int (drop at s.now)) }
{
    if s.len() <= at {
        return None;
    }
    if s[at] == b'0' {
        return Some(at + 1);
    }
    digits_at(s, at)
}

// A point and digits, if there is a point.
fn frac_at(s: &[u8], at: usize) -> Option<usize>
    requires { at ≤ length s.now }
    ensures { Means s.now result (frac (drop at s.now)) }
{
    if s.len() <= at {
        return Some(at);
    }
    if s[at] != b'.' {
        return Some(at);
    }
    digits_at(s, at + 1)
}

// A place past a sign, if there is one.
fn past_sign(s: &[u8], at: usize) -> usize
    requires { at ≤ length s.now }
    ensures { PastOne is_sign s.now at result }
{
    if s.len() <= at {
        return at;
    }
    if s[at] == b'-' {
        return at + 1;
    }
    if s[at] == b'+' {
        return at + 1;
    }
    at
}

// An e, a sign or none, and digits, if there is an e.
fn exp_at(s: &[u8], at: usize) -> Option<usize>
    requires { at ≤ length s.now }
    ensures { Means s.now result (exp (drop at s.now)) }
{
    if s.len() <= at {
        return Some(at);
    }
    if s[at] == b'e' {
        return digits_at(s, past_sign(s, at + 1));
    }
    if s[at] == b'E' {
        return digits_at(s, past_sign(s, at + 1));
    }
    Some(at)
}

// A place past a minus, if there is one.
fn past_minus(s: &[u8], at: usize) -> usize
    requires { at ≤ length s.now }
    ensures { PastOne is_minus s.now at result }
{
    if s.len() <= at {
        return at;
    }
    if s[at] == b'-' {
        return at + 1;
    }
    at
}

// A number.
pub fn number_at(s: &[u8], at: usize) -> Option<usize>
    requires { at ≤ length s.now }
    ensures { Means s.now result (json_number (drop at s.now)) }
{
    let whole = int_at(s, past_minus(s, at))?;
    let fraction = frac_at(s, whole)?;
    exp_at(s, fraction)
}

// What becomes of one line, and its fault.
ghost use Rattle.std.specs.Prelude.{◌≡◌};
ghost use Rattle.line.specs.Kinds.{line_of};
ghost use Rattle.load_rule.specs.Fates.{no_fates, plus, one, comment_fate, method_fate, fate_of, member_after, ownerless, refused_fault, fault_of};
ghost use Rattle.load_rule.specs.Loading.{most_text};
ghost use Rattle.load_scan.specs.Inner.Bounds.{Within};

use line::{Line, Refusal, refusal_number};
use load_residual::gives_signature;
use load_rule::{Fate, Fates};

// No line is counted yet.
pub fn no_fates() -> Fates
    ensures { result ≡ no_fates }
{
    Fates {
        lines: 0,
        blank: 0,
        applied: 0,
        idle: 0,
        class: 0,
        field: 0,
        method: 0,
        short: 0,
    }
}

// One line more of a fate.
pub fn counted(fates: Fates, fate: Fate) -> Fates
    requires { Within fates most_text }
    ensures { result ≡ plus fates (one fate) }
{
    let mut sum = fates;
    sum.lines += 1;
    match fate {
        Fate::Blank => {
            sum.blank += 1;
            sum
        }
        Fate::Applied => {
            sum.applied += 1;
            sum
        }
        Fate::Idle => {
            sum.idle += 1;
            sum
        }
        Fate::Class => {
            sum.class += 1;
            sum
        }
        Fate::Field => {
            sum.field += 1;
            sum
        }
        Fate::Method => {
            sum.method += 1;
            sum
        }
        Fate::Short => {
            sum.method += 1;
            sum.short += 1;
            sum
        }
        Fate::Faulty => sum,
    }
}

fn comment_fate(applies: bool) -> Fate
    ensures { result ≡ comment_fate applies }
{
    if applies {
        return Fate::Applied;
    }
    Fate::Idle
}

fn method_fate(short: bool) -> Fate
    ensures { result ≡ method_fate short }
{
    if short {
        return Fate::Short;
    }
    Fate::Method
}

// What becomes of a line. `member`: whether the current class has a last member.
pub fn fate_of(line: &[u8], kind: Line, member: bool) -> Fate
    requires { line_of line.now ≡ kind }
    ensures { result ≡ fate_of member line.now kind }
{
    match kind {
        Line::Blank => Fate::Blank,
        Line::Comment(brace) => {
            if member {
                return comment_fate(gives_signature(line, brace));
            }
            comment_fate(false)
        }
        Line::Class { display: _, raw: _ } => Fate::Class,
        Line::Field {
            declared: _,
            name: _,
            raw: _,
        } => Fate::Field,
        Line::Method { method, raw: _ } => method_fate(method.short),
        Line::Refused(_) => Fate::Faulty,
    }
}

// Whether the current class has a last member after a line.
pub fn member_after(member: bool, kind: Line) -> bool
    ensures { result ≡ member_after member kind }
{
    match kind {
        Line::Blank => member,
        Line::Comment(_) => member,
        Line::Class { display: _, raw: _ } => false,
        Line::Field {
            declared: _,
            name: _,
            raw: _,
        } => true,
        Line::Method { method: _, raw: _ } => true,
        Line::Refused(_) => member,
    }
}

// The fault of a member line: 4 where no class line stands before it.
fn without_class(classes: u32, number: u32) -> u32
    ensures { result ≡ ownerless classes number }
{
    if classes == 0 {
        return 4;
    }
    number
}

// The fault of a line that is refused.
fn refused_fault(classes: u32, refusal: Refusal) -> u32
    ensures { result ≡ refused_fault classes refusal }
{
    let number = refusal_number(refusal);
    match refusal {
        Refusal::Class => number,
        Refusal::Member => without_class(classes, number),
        Refusal::Method => without_class(classes, number),
        Refusal::Field => without_class(classes, number),
    }
}

// The fault of a line, 0 where it has none. `classes` is how many class lines stand before it.
pub fn fault(classes: u32, kind: Line) -> u32
    ensures { result ≡ fault_of classes kind }
{
    match kind {
        Line::Blank => 0,
        Line::Comment(_) => 0,
        Line::Class { display: _, raw: _ } => 0,
        Line::Field {
            declared: _,
            name: _,
            raw: _,
        } => without_class(classes, 0),
        Line::Method { method: _, raw: _ } => without_class(classes, 0),
        Line::Refused(refusal) => refused_fault(classes, refusal),
    }
}

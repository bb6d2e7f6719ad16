// What a line adds to the rows and the pool.
ghost use Rattle.std.specs.Prelude.{◌≡◌};
ghost use Rattle.load_members.specs.Inner.Roles.{role_of};
ghost use Rattle.load_members.specs.Inner.Enters.{slot_at, Ready, Behind, MemberReady, WrittenMemberBy, EnterBy};

use crate::role::{Role, role_of};
use crate::row::member_row;
use load_residual::Residual;
use load_scan::LineStep;
use load_texts::{MemberLine, write_texts};
use table_pool::NoRoom;
use table_rows::{ClassRow, MemberRow};

// Where the next member goes: its row, and the place of its texts. `classes` class lines stand before it; the display name of the last
// one stands in the text from `own` to `own_end`.
#[derive(Clone, Copy)]
pub struct Slot {
    pub row: usize,
    pub place: usize,
    pub classes: u32,
    pub own: usize,
    pub own_end: usize,
}

// Where the first member goes, if the pool is used up to the place `used`.
pub fn first_slot(used: usize) -> Slot
    ensures { result ≡ slot_at 0 used 0 0 0 }
{
    Slot {
        row: 0,
        place: used,
        classes: 0,
        own: 0,
        own_end: 0,
    }
}

// The texts of a member, and its row. `given` is the signature that the lines behind it give.
fn enter_member(
    members: &mut [MemberRow],
    pool: &mut [u8],
    text: &[u8],
    line: LineStep,
    given: Option<Residual>,
    parts: MemberLine,
    slot: Slot,
    classes: &[ClassRow],
    index: &[u16],
) -> Result<Slot, NoRoom>
    requires { Ready text.now classes.now index.now line slot pool.old
        × Behind text.now line given
        × MemberReady text.now line slot parts }
    ensures { WrittenMemberBy result text.now classes.now line parts slot members.old pool.old
        members.new pool.new }
{
    let row = slot.row;
    let place = slot.place;
    if members.len() <= row {
        return Err(NoRoom);
    }
    let next = line.next;
    let start = line.start;
    let end = line.end;
    let first = slot.own;
    let last = slot.own_end;
    let after = &text[next..];
    let bytes = &text[start..end];
    let own = &text[first..last];
    let texts = write_texts(pool, place, after, given, bytes, parts, own, classes, index);
    let places = texts?;
    let body = parts.body;
    members[row] = member_row(slot.classes - 1, place, places, body);
    let mut following = slot;
    following.row += 1;
    following.place = places.end;
    Ok(following)
}

// A class line names the class of the members after it, a member line is entered.
pub fn enter_line(
    members: &mut [MemberRow],
    pool: &mut [u8],
    text: &[u8],
    line: LineStep,
    given: Option<Residual>,
    slot: Slot,
    classes: &[ClassRow],
    index: &[u16],
) -> Result<Slot, NoRoom>
    requires { Ready text.now classes.now index.now line slot pool.old × Behind text.now line given }
    ensures { EnterBy (role_of line.kind) result text.now classes.now line slot members.old
        pool.old members.new pool.new }
{
    let kind = line.kind;
    match role_of(kind) {
        Role::Neither => Ok(slot),
        Role::Class(display) => {
            let mut named = slot;
            named.classes += 1;
            named.own = line.start + display.start;
            named.own_end = line.start + display.end;
            Ok(named)
        }
        Role::Member(parts) => {
            enter_member(
                members, pool, text, line, given, parts, slot, classes, index,
            )
        }
    }
}

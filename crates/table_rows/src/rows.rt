// Rows by value: what a class row and a member row are made of.
ghost use Rattle.std.specs.Prelude.{◌≡◌, ◌≤◌, ◌-◌, length};
ghost use Rattle.table_rows.specs.Inner.Parts.{parts_row};
ghost use Rattle.table_rows.specs.Rows.{text, pack_class, unpack_class, pack_member, unpack_ranges, unpack_member, flag_of, most_pool};

// A longer slice that is lent counts as that.
pub const MOST_CLASSES: usize = 4096;

pub const MOST_MEMBERS: usize = 32768;

pub const MOST_POOL: usize = 4194304;

pub type ClassRow = [u32; 4];

pub type MemberRow = [u32; 15];

// A text in the pool.
#[derive(Clone, Copy)]
pub struct Text {
    pub place: u32,
    pub length: u32,
}

// A text by the places at which it starts and ends.
pub fn text_between(start: usize, end: usize) -> Text
    requires { (start ≤ «end») × («end» ≤ most_pool) }
    ensures { result ≡ text start («end» - start) }
{
    let length = end - start;
    Text {
        place: start as u32,
        length: length as u32,
    }
}

#[derive(Clone, Copy)]
pub struct Class {
    pub raw: Text,
    pub display: Text,
}

// The ranges of a method: absent ones are zeros in its row.
#[derive(Clone, Copy)]
pub enum Ranges {
    None,
    Display {
        start: u32,
        end: u32,
    },
    Both {
        raw_start: u32,
        raw_end: u32,
        start: u32,
        end: u32,
    },
}

#[derive(Clone, Copy)]
pub struct Member {
    // 0 a field, 1 a method.
    pub kind: u32,
    pub class: u32,
    pub raw_name: Text,
    pub descriptor: Text,
    pub name: Text,
    pub owner: Text,
    pub ranges: Ranges,
}

pub fn pack_class(class: Class) -> ClassRow
    ensures { result ≡ pack_class class }
{
    [
        class.raw.place,
        class.raw.length,
        class.display.place,
        class.display.length,
    ]
}

pub fn unpack_class(row: ClassRow) -> Class
    ensures { result ≡ unpack_class row }
{
    Class {
        raw: Text {
            place: row[0],
            length: row[1],
        },
        display: Text {
            place: row[2],
            length: row[3],
        },
    }
}

// A member row without ranges: fifteen numbers, of which the last five are zeros.
fn without_ranges(member: Member) -> MemberRow
    ensures { result ≡ parts_row member }
{
    [
        member.kind,
        member.class,
        member.raw_name.place,
        member.raw_name.length,
        member.descriptor.place,
        member.descriptor.length,
        member.name.place,
        member.name.length,
        member.owner.place,
        member.owner.length,
        0,
        0,
        0,
        0,
        0,
    ]
}

pub fn pack_member(member: Member) -> MemberRow
    ensures { result ≡ pack_member member }
{
    let ranges = member.ranges;
    let mut row = without_ranges(member);
    match ranges {
        Ranges::None => row,
        Ranges::Display { start, end } => {
            row[10] = 1;
            row[13] = start;
            row[14] = end;
            row
        }
        Ranges::Both {
            raw_start,
            raw_end,
            start,
            end,
        } => {
            row[10] = 2;
            row[11] = raw_start;
            row[12] = raw_end;
            row[13] = start;
            row[14] = end;
            row
        }
    }
}

fn unpack_ranges(row: MemberRow) -> Ranges
    ensures { result ≡ unpack_ranges row }
{
    if row[10] == 0 {
        return Ranges::None;
    }
    if row[10] == 1 {
        return Ranges::Display {
            start: row[13],
            end: row[14],
        };
    }
    Ranges::Both {
        raw_start: row[11],
        raw_end: row[12],
        start: row[13],
        end: row[14],
    }
}

pub fn unpack_member(row: MemberRow) -> Member
    ensures { result ≡ unpack_member row }
{
    Member {
        kind: row[0],
        class: row[1],
        raw_name: Text {
            place: row[2],
            length: row[3],
        },
        descriptor: Text {
            place: row[4],
            length: row[5],
        },
        name: Text {
            place: row[6],
            length: row[7],
        },
        owner: Text {
            place: row[8],
            length: row[9],
        },
        ranges: unpack_ranges(row),
    }
}

// The range flag of a row as it stands: 0 none, 1 display only, 2 both. A member keeps no other, so a check has to ask the row.
pub fn range_flag(row: MemberRow) -> u32
    ensures { result ≡ flag_of row }
{
    let flag = row[10];
    flag
}

// Rows by value, and rows and bytes made zero.
#![tactic(auto)]

mod rows;
mod zero;

pub use rows::{
    Class, ClassRow, MOST_CLASSES, MOST_MEMBERS, MOST_POOL, Member, MemberRow, Ranges, Text,
    pack_class, pack_member, range_flag, text_between, unpack_class, unpack_member,
};
pub use zero::{zero_bytes, zero_classes, zero_members};

// C functions over descriptors, for differential runs. Each writes its answer as numbers; those that write into a room: 1 and the place
// after the last byte written, or zeros where there is no room. What a room holds then is the caller's to clear.
#![tactic(auto)]

ghost use Rattle.std.specs.Prelude.{◌≡◌};
ghost use Rattle.table_pool.specs.Names.{class_descriptor};
ghost use Rattle.descriptor.specs.Types.{shape_of};
ghost use Rattle.descriptor_probes.specs.Answers.{wrote_numbers, base_number, base_letter, shape_numbers, Said, SaidWithin};

use descriptor::Base;
use table_pool::NoRoom;

fn wrote_numbers(w: Result<usize, NoRoom>) -> [u64; 2]
    ensures { result ≡ wrote_numbers w }
{
    let Ok(end) = w else {
        return [0, 0];
    };
    [1, end as u64]
}

#[unsafe(no_mangle)]
pub extern "C" fn clumarief_probe_class(
    name: &[u8],
    room: &mut [u8],
    at: usize,
    answer: &mut [u64; 2],
)
    ensures { Said answer.new room.old at (class_descriptor name.now) room.new }
{
    let wrote = table_pool::put_class(room, at, name);
    *answer = wrote_numbers(wrote);
}

// What the base of a type is: 0 one of the nine words, 1 `L..;`, 2 a class name.
fn base_number(base: Base) -> u64
    ensures { result ≡ base_number base }
{
    match base {
        Base::Letter(_) => 0,
        Base::Kept => 1,
        Base::Named => 2,
    }
}

// The letter of one of the nine words, 0 where it is none.
fn base_letter(base: Base) -> u64
    ensures { result ≡ base_letter base }
{
    match base {
        Base::Letter(letter) => letter as u64,
        Base::Kept => 0,
        Base::Named => 0,
    }
}

// A type: how many `[]`s it has, where its base starts and ends, what that is, and its letter.
#[unsafe(no_mangle)]
pub extern "C" fn clumarief_probe_type_shape(text: &[u8], answer: &mut [u64; 5])
    ensures { answer.new ≡ shape_numbers (shape_of text.now) }
{
    let shape = descriptor::type_shape(text);
    let base = shape.base;
    *answer = [
        shape.brackets as u64,
        shape.start as u64,
        shape.end as u64,
        base_number(base),
        base_letter(base),
    ];
}

// The signature stands in the room from `at` to `end`; nothing is done where that is no part of the room.
#[unsafe(no_mangle)]
pub extern "C" fn clumarief_probe_signature(
    room: &mut [u8],
    at: usize,
    end: usize,
    method: u32,
    answer: &mut [u64; 2],
)
    ensures { SaidWithin answer.new room.old at «end» method room.new }
{
    if end < at {
        *answer = [2, 0];
        return;
    }
    if room.len() < end {
        *answer = [2, 0];
        return;
    }
    let wrote = descriptor::settle_signature(room, at, end, method != 0);
    *answer = wrote_numbers(wrote);
}

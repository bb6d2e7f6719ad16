// Raw descriptors of members, written into the pool.
ghost use Rattle.std.specs.Prelude.{◌∷◌, ◌≤◌, length, drop};
ghost use Rattle.json_grammar.specs.Reader.{chars_from};
ghost use Rattle.json_decode.specs.Decoded.{decoded};
ghost use Rattle.line_parts.specs.Arguments.{arguments_of};
ghost use Rattle.descriptor.specs.Signatures.{raw_signature};
ghost use Rattle.table_pool.specs.Inner.Wrote.{WroteBy};
ghost use Rattle.tables.specs.Back.{read_back};
ghost use Rattle.descriptor.specs.Raw.{raw_type_of};
ghost use Rattle.load_raw_types.specs.Inner.Behind.{Indexed};
ghost use Rattle.load_rule.specs.Members.{argument_types, types_descriptor};

use descriptor::settle_signature;
use json_decode::{WriteError, decode_at, plain_string};
use line_parts::{NextArgument, next_argument};
use load_raw_types::put_raw_type;
use table_pool::{NoRoom, put_text};
use table_rows::ClassRow;

// A raw signature as it stands in a text: it is copied, and then settled where it stands.
fn copy_signature(
    pool: &mut [u8],
    at: usize,
    signature: &[u8],
    method: bool,
) -> Result<usize, NoRoom>
    ensures { WroteBy result pool.old at (raw_signature method signature.now) pool.new }
{
    let end = put_text(pool, at, signature)?;
    settle_signature(pool, at, end, method)
}

// A residual signature: the string of a comment, whose first char stands at the place `string`. It is decoded, or copied where it has no
// escapes, and then settled where it stands.
pub fn put_signature(
    pool: &mut [u8],
    at: usize,
    json: &[u8],
    string: usize,
    method: bool,
) -> Result<usize, NoRoom>
    requires { at ≤ length pool.old }
    ensures { WroteBy result pool.old at (raw_signature method (decoded (chars_from 0 (drop string json.now))))
        pool.new }
{
    if let Some(end) = plain_string(json, string) {
        return copy_signature(pool, at, &json[string..end], method);
    }
    match decode_at(pool, at, json, string) {
        Ok(end) => settle_signature(pool, at, end, method),
        Err(WriteError::NoRoom) => Err(NoRoom),
        Err(WriteError::NoString) => settle_signature(pool, at, at, method),
    }
}

// The raw descriptors of all arguments, one after the other.
fn put_arguments(
    pool: &mut [u8],
    at: usize,
    arguments: &[u8],
    classes: &[ClassRow],
    index: &[u16],
) -> Result<usize, NoRoom>
    requires { Indexed classes.now pool.old index.now at }
    ensures { let cs = read_back classes.now pool.old in
        WroteBy result pool.old at (argument_types cs (arguments_of arguments.now)) pool.new }
{
    let mut to = at;
    let mut from = 0;
    while from < arguments.len() {
        let Some(NextArgument { start, end, next }) = next_argument(arguments, from) else {
            return Ok(to);
        };
        let after = put_raw_type(pool, to, &arguments[start..end], classes, index)?;
        to = after;
        from = next;
    }
    Ok(to)
}

// `(` and the arguments.
fn put_opening(
    pool: &mut [u8],
    at: usize,
    arguments: &[u8],
    classes: &[ClassRow],
    index: &[u16],
) -> Result<usize, NoRoom>
    requires { Indexed classes.now pool.old index.now at }
    ensures { let cs = read_back classes.now pool.old in
        WroteBy result pool.old at (0x28 ∷ argument_types cs (arguments_of arguments.now)) pool.new }
{
    let opened = put_text(pool, at, b"(")?;
    put_arguments(pool, opened, arguments, classes, index)
}

// `)` and the return type.
fn put_returned(
    pool: &mut [u8],
    at: usize,
    returned: &[u8],
    classes: &[ClassRow],
    index: &[u16],
) -> Result<usize, NoRoom>
    requires { Indexed classes.now pool.old index.now at }
    ensures { let cs = read_back classes.now pool.old in
        WroteBy result pool.old at (0x29 ∷ raw_type_of cs returned.now) pool.new }
{
    let closed = put_text(pool, at, b")")?;
    put_raw_type(pool, closed, returned, classes, index)
}

// The raw descriptor of a method by its display types: `(`, its arguments, `)`, its return type.
pub fn put_types(
    pool: &mut [u8],
    at: usize,
    arguments: &[u8],
    returned: &[u8],
    classes: &[ClassRow],
    index: &[u16],
) -> Result<usize, NoRoom>
    requires { Indexed classes.now pool.old index.now at }
    ensures { let cs = read_back classes.now pool.old in
        WroteBy result pool.old at (types_descriptor cs (arguments_of arguments.now) returned.now)
        pool.new }
{
    let taken = put_opening(pool, at, arguments, classes, index)?;
    put_returned(pool, taken, returned, classes, index)
}

// The texts of a member, written into the pool in row order.
ghost use Rattle.std.specs.Prelude.{◌≡◌, length};
ghost use Rattle.text_places.specs.Lines.{lines};
ghost use Rattle.text_places.specs.Spans.{part_of};
ghost use Rattle.table_pool.specs.Inner.Wrote.{WroteBy, TwoBy};
ghost use Rattle.tables.specs.Back.{read_back};
ghost use Rattle.load_raw_types.specs.Inner.Behind.{Indexed};
ghost use Rattle.load_rule.specs.Comments.{residual_in};
ghost use Rattle.load_residual.specs.Inner.Residuals.{Gives};
ghost use Rattle.load_texts.specs.Inner.Texts.{BodyIn, MemberIn, is_method, display_types, descriptor_text, owner_text, texts_of};
ghost use Rattle.load_texts.specs.Inner.Places.{EnteredTextsBy};

use crate::descriptors::{put_signature, put_types};
use line_parts::{Method, Qualified};
use load_raw_types::put_raw_type;
use load_residual::Residual;
use table_pool::{NoRoom, TwoTexts, put_class, put_text};
use table_rows::ClassRow;
use text_places::Span;

// What only a field has, and what only a method has.
#[derive(Clone, Copy)]
pub enum Body {
    // Its type.
    Field(Span),
    Method(Method),
}

// A member line by the parts that become texts.
#[derive(Clone, Copy)]
pub struct MemberLine {
    pub raw: Span,
    pub name: Span,
    pub body: Body,
}

// Where the texts of a member start, after its raw name, and where they end.
#[derive(Clone, Copy)]
pub struct Places {
    pub descriptor: usize,
    pub name: usize,
    pub owner: usize,
    pub end: usize,
}

fn is_method(body: Body) -> bool
    ensures { result ≡ is_method body }
{
    match body {
        Body::Field(_) => false,
        Body::Method(_) => true,
    }
}

// The raw descriptor of a member by its display types.
fn put_display_types(
    pool: &mut [u8],
    at: usize,
    line: &[u8],
    body: Body,
    classes: &[ClassRow],
    index: &[u16],
) -> Result<usize, NoRoom>
    requires { Indexed classes.now pool.old index.now at × BodyIn body (length line.now) }
    ensures { let cs = read_back classes.now pool.old in
        WroteBy result pool.old at (display_types cs line.now body) pool.new }
{
    match body {
        Body::Field(declared) => {
            let start = declared.start;
            let end = declared.end;
            put_raw_type(pool, at, &line[start..end], classes, index)
        }
        Body::Method(method) => {
            let start = method.arguments.start;
            let end = method.arguments.end;
            let first = method.returned.start;
            let last = method.returned.end;
            put_types(
                pool,
                at,
                &line[start..end],
                &line[first..last],
                classes,
                index,
            )
        }
    }
}

// The raw descriptor of a member: that of its residual signature, which stands in the lines `after` it, else that of its display types.
fn put_descriptor(
    pool: &mut [u8],
    at: usize,
    after: &[u8],
    residual: Option<Residual>,
    line: &[u8],
    body: Body,
    classes: &[ClassRow],
    index: &[u16],
) -> Result<usize, NoRoom>
    requires { Indexed classes.now pool.old index.now at × BodyIn body (length line.now)
        × Gives after.now residual (residual_in (lines after.now)) }
    ensures { let cs = read_back classes.now pool.old in
        WroteBy result pool.old at (descriptor_text cs (residual_in (lines after.now)) line.now body)
        pool.new }
{
    match residual {
        Some(Residual { start, end, string }) => put_signature(
            pool,
            at,
            &after[start..end],
            string,
            is_method(body),
        ),
        None => put_display_types(pool, at, line, body, classes, index),
    }
}

// The owner of a method, by its name or by that of the class line; a field has none.
fn put_owner(
    pool: &mut [u8],
    at: usize,
    line: &[u8],
    body: Body,
    own: &[u8],
) -> Result<usize, NoRoom>
    requires { BodyIn body (length line.now) }
    ensures { WroteBy result pool.old at (owner_text own.now line.now body) pool.new }
{
    match body {
        Body::Field(_) => put_text(pool, at, b""),
        Body::Method(method) => {
            let named = method.named;
            match named {
                Qualified::Owned { owner, name: _ } => {
                    let start = owner.start;
                    let end = owner.end;
                    put_class(pool, at, &line[start..end])
                }
                Qualified::Plain { name: _ } => put_class(pool, at, own),
            }
        }
    }
}

// The raw name and the raw descriptor of a member. `after` is the text after its line.
fn put_raw_part(
    pool: &mut [u8],
    at: usize,
    after: &[u8],
    residual: Option<Residual>,
    line: &[u8],
    member: MemberLine,
    classes: &[ClassRow],
    index: &[u16],
) -> Result<TwoTexts, NoRoom>
    requires { Indexed classes.now pool.old index.now at × MemberIn member (length line.now)
        × Gives after.now residual (residual_in (lines after.now)) }
    ensures { let cs = read_back classes.now pool.old in
        TwoBy result pool.old at (part_of line.now member.raw)
        (descriptor_text cs (residual_in (lines after.now)) line.now member.body) pool.new }
{
    let body = member.body;
    let start = member.raw.start;
    let end = member.raw.end;
    let second = put_text(pool, at, &line[start..end])?;
    let described = put_descriptor(pool, second, after, residual, line, body, classes, index);
    let next = described?;
    Ok(TwoTexts { second, next })
}

// The display name and the display owner of a member. `own` is the display name of its class line.
fn put_display_part(
    pool: &mut [u8],
    at: usize,
    line: &[u8],
    member: MemberLine,
    own: &[u8],
) -> Result<TwoTexts, NoRoom>
    requires { MemberIn member (length line.now) }
    ensures { TwoBy result pool.old at (part_of line.now member.name)
        (owner_text own.now line.now member.body) pool.new }
{
    let body = member.body;
    let start = member.name.start;
    let end = member.name.end;
    let second = put_text(pool, at, &line[start..end])?;
    let next = put_owner(pool, second, line, body, own)?;
    Ok(TwoTexts { second, next })
}

// All texts of a member. `residual` is the signature that the lines `after` it give.
pub fn write_texts(
    pool: &mut [u8],
    at: usize,
    after: &[u8],
    residual: Option<Residual>,
    line: &[u8],
    member: MemberLine,
    own: &[u8],
    classes: &[ClassRow],
    index: &[u16],
) -> Result<Places, NoRoom>
    requires { Indexed classes.now pool.old index.now at × MemberIn member (length line.now)
        × Gives after.now residual (residual_in (lines after.now)) }
    ensures { let cs = read_back classes.now pool.old in
        EnteredTextsBy result pool.old at
        (texts_of cs (residual_in (lines after.now)) own.now line.now member) pool.new }
{
    let TwoTexts {
        second: descriptor,
        next: name,
    } = put_raw_part(pool, at, after, residual, line, member, classes, index)?;
    let TwoTexts {
        second: owner,
        next: end,
    } = put_display_part(pool, name, line, member, own)?;
    Ok(Places {
        descriptor,
        name,
        owner,
        end,
    })
}

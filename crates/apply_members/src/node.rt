// What is noted of a node: what the mapping says of the member that it names.
ghost use Rattle.std.specs.Prelude.{◌≡◌, ◌+◌, ◌≤◌, ◌<◌, length};
ghost use Rattle.tables.specs.declared.search.Side.TheVariants.{Raw};
ghost use Rattle.tables.specs.Search.{last_raw};
ghost use Rattle.table_index.specs.Inner.Index.{IndexBy};
ghost use Rattle.name_rule.specs.MemberNames.{key};
ghost use Rattle.name_index.specs.Inner.Chains.{Chained};
ghost use Rattle.tree_rule.specs.Words.{list_from};
ghost use Rattle.tree_rule.specs.Trees.{name_in};
ghost use Rattle.tree_rule.specs.Files.{token_at, text_at, tree_by};
ghost use Rattle.tree_rule.specs.Theorems.{FormedBy};
ghost use Rattle.apply_rule.specs.Changes.{raw_name_of, signed_of};
ghost use Rattle.apply_pieces.specs.Inner.Notes.{NotesTold};
ghost use Rattle.apply_members.specs.Inner.Notes.{is_home, member_note, note_signed, token_owner, token_found};
ghost use Rattle.apply_members.specs.Inner.Tokens.{NamedToken, OwnerNamed, NoteOf};

use crate::member::{MemberNote, is_home, member_note};
use apply_pieces::raw_length;
use table_index::last_raw;
use table_rows::{ClassRow, MemberRow};
use tree_rule::{NodeSignature, Owner, TreeCounts};
use tree_signature::node_signature;
use tree_words::{name_text, names_start, tokens_start, word_at};

#[derive(Clone, Copy)]
pub struct NodeNote {
    // The token that is the member's name, by its number.
    pub member: usize,
    // As of the member.
    pub named: u32,
    pub inherits: bool,
    pub lines: u32,
}

// The number of the raw name of a token that has one.
fn raw_number(tree: &[u8], counts: TreeCounts, token: usize) -> usize
    requires { FormedBy counts tree.now × NamedToken counts tree.now token }
    ensures { let f = tree.now in
        (result < counts.names) × (text_at counts f result ≡ raw_name_of (name_in (tree_by counts f)) (token_at counts f token)) }
{
    word_at(tree, tokens_start(counts) + 12 * token + 4) as usize
}

// The raw name of such a token.
fn raw_name(tree: &[u8], counts: TreeCounts, token: usize) -> &[u8]
    requires { FormedBy counts tree.now × NamedToken counts tree.now token }
    ensures { let f = tree.now in result.now ≡ raw_name_of (name_in (tree_by counts f)) (token_at counts f token) }
{
    name_text(tree, counts, raw_number(tree, counts, token))
}

// The last class row with a name of the tree as its raw descriptor. Where the first known piece of the name is the whole of it, the note
// about the name has the row.
fn owner_row(
    out: &[u8],
    counts: TreeCounts,
    index: &[u16],
    classes: &[ClassRow],
    pool: &[u8],
    name: usize,
    owner: &[u8],
) -> Option<usize>
    requires { IndexBy Raw classes.now pool.now index.now
        × NoteOf classes.now pool.now counts out.now name owner.now }
    ensures { result ≡ last_raw classes.now pool.now owner.now }
{
    let note = names_start(counts) + 8 * name;
    if word_at(out, note) == 1 {
        let row = word_at(out, note + 4) as usize;
        if raw_length(classes, pool, row) == owner.len() {
            return Some(row);
        }
    }
    last_raw(index, classes, pool, owner)
}

// The class row of an owner; `given` is the class row of the class given.
fn owner_found(
    out: &[u8],
    index: &[u16],
    classes: &[ClassRow],
    pool: &[u8],
    given: Option<usize>,
    tree: &[u8],
    counts: TreeCounts,
    owner: Owner,
) -> Option<usize>
    requires { IndexBy Raw classes.now pool.now index.now
        × FormedBy counts tree.now
        × OwnerNamed counts tree.now owner
        × NotesTold classes.now pool.now counts tree.now out.now }
    ensures { let f = tree.now in
        result ≡ token_found classes.now pool.now given (name_in (tree_by counts f)) (token_at counts f) owner }
{
    match owner {
        Owner::Given => given,
        Owner::At(token) => {
            let number = raw_number(tree, counts, token);
            let text = name_text(tree, counts, number);
            owner_row(out, counts, index, classes, pool, number, text)
        }
    }
}

// Whether a member is "a method whose owner is the class given".
fn is_given(class: &[u8], tree: &[u8], counts: TreeCounts, owner: Owner, descriptor: &[u8]) -> bool
    requires { FormedBy counts tree.now × OwnerNamed counts tree.now owner }
    ensures { let f = tree.now in
        let text = token_owner class.now (name_in (tree_by counts f)) (token_at counts f) owner in
        result ≡ is_home class.now text descriptor.now }
{
    match owner {
        Owner::Given => is_home(class, class, descriptor),
        Owner::At(token) => is_home(class, raw_name(tree, counts, token), descriptor),
    }
}

// The member that two tokens and an owner name.
fn named_note(
    out: &[u8],
    index: &[u16],
    chains: &[u16],
    classes: &[ClassRow],
    members: &[MemberRow],
    pool: &[u8],
    class: &[u8],
    given: Option<usize>,
    tree: &[u8],
    counts: TreeCounts,
    member: usize,
    descriptor: usize,
    owner: Owner,
) -> MemberNote
    requires { IndexBy Raw classes.now pool.now index.now
        × Chained classes.now pool.now members.now chains.now (length members.now)
        × FormedBy counts tree.now
        × NamedToken counts tree.now member
        × NamedToken counts tree.now descriptor
        × OwnerNamed counts tree.now owner
        × NotesTold classes.now pool.now counts tree.now out.now
        × (given ≡ last_raw classes.now pool.now class.now) }
    ensures { let f = tree.now in
        let name = name_in (tree_by counts f) in
        let k = key (token_owner class.now name (token_at counts f) owner) (raw_name_of name (token_at counts f member))
        (raw_name_of name (token_at counts f descriptor)) in
        result ≡ member_note classes.now members.now pool.now class.now k }
{
    let name = raw_name(tree, counts, member);
    let types = raw_name(tree, counts, descriptor);
    let found = owner_found(out, index, classes, pool, given, tree, counts, owner);
    let Some(row) = found else {
        let home = is_given(class, tree, counts, owner, types);
        return MemberNote {
            named: 0,
            inherits: !home,
            lines: 0,
        };
    };
    member_note(chains, classes, members, pool, given, row, name, types)
}

// The note of a node whose `count` tokens start at token `first`. `given` is the class row of the class given, and notes about the names of
// the tree stand in `out`.
pub fn node_note(
    out: &[u8],
    index: &[u16],
    chains: &[u16],
    classes: &[ClassRow],
    members: &[MemberRow],
    pool: &[u8],
    class: &[u8],
    given: Option<usize>,
    tree: &[u8],
    counts: TreeCounts,
    first: usize,
    count: usize,
) -> NodeNote
    requires { IndexBy Raw classes.now pool.now index.now
        × Chained classes.now pool.now members.now chains.now (length members.now)
        × FormedBy counts tree.now
        × (first + count ≤ counts.tokens)
        × NotesTold classes.now pool.now counts tree.now out.now
        × (given ≡ last_raw classes.now pool.now class.now) }
    ensures { let f = tree.now in
        let s = signed_of class.now (name_in (tree_by counts f)) (list_from (token_at counts f) first count) in
        result ≡ note_signed classes.now members.now pool.now class.now first s }
{
    match node_signature(tree, counts, first, count) {
        None => NodeNote {
            member: 0,
            named: 0,
            inherits: true,
            lines: 0,
        },
        Some(
            NodeSignature {
                member,
                descriptor,
                owner,
            },
        ) => {
            let note = named_note(
                out, index, chains, classes, members, pool, class, given, tree, counts, member,
                descriptor, owner,
            );
            NodeNote {
                member,
                named: note.named,
                inherits: note.inherits,
                lines: note.lines,
            }
        }
    }
}

// What becomes of a token.
ghost use Rattle.std.specs.Prelude.{◌≡◌, ◌≤◌, ◌<◌, length};
ghost use Rattle.name_index.specs.Inner.Chains.{Chained};
ghost use Rattle.tree_rule.specs.Theorems.{FormedBy};
ghost use Rattle.apply_pieces.specs.Inner.Notes.{NotesTold};
ghost use Rattle.apply_members.specs.Inner.Notes.{MeantBy};
ghost use Rattle.apply_plans.specs.Inner.Plan.{member_plan, name_plan, line_plan, plan_at};

use apply_members::context_line;
use apply_pieces::raw_length;
use name_lines::DisplayLine;
use table_rows::{ClassRow, MemberRow, unpack_class, unpack_member};
use tree_rule::TreeCounts;
use tree_words::{name_text, names_start, tokens_start, word_at};

#[derive(Clone, Copy)]
pub enum Plan {
    Stays,
    // A line is put there.
    Line(u32),
    // A text of the pool is appended.
    Text { place: u32, length: u32 },
    // A raw name is appended with its known pieces shown.
    Shown(u32),
}

// Of a member name, by the number of the row whose name is shown.
fn member_plan(members: &[MemberRow], named: u32) -> Plan
    requires { named ≤ length members.now }
    ensures { result ≡ member_plan members.now named }
{
    if named == 0 {
        return Plan::Stays;
    }
    let row = named as usize - 1;
    let name = unpack_member(members[row]).name;
    Plan::Text {
        place: name.place,
        length: name.length,
    }
}

// Of a descriptor, by the note about its raw name. Where the first known piece is the whole of it, a class's display is appended.
fn name_plan(
    out: &[u8],
    tree: &[u8],
    counts: TreeCounts,
    classes: &[ClassRow],
    pool: &[u8],
    raw: u32,
) -> Plan
    requires { FormedBy counts tree.now × NotesTold classes.now pool.now counts tree.now out.now × (raw < counts.names) }
    ensures { result ≡ name_plan classes.now pool.now counts tree.now out.now raw }
{
    let name = raw as usize;
    let at = names_start(counts) + 8 * name;
    let number = word_at(out, at);
    let row = word_at(out, at + 4) as usize;
    if number == 0 {
        return Plan::Stays;
    }
    let text = name_text(tree, counts, name);
    if text.len() == raw_length(classes, pool, row) {
        let display = unpack_class(classes[row]).display;
        return Plan::Text {
            place: display.place,
            length: display.length,
        };
    }
    Plan::Shown(raw)
}

fn line_plan(line: Option<DisplayLine>) -> Plan
    ensures { result ≡ line_plan line }
{
    match line {
        Some(shown) => Plan::Line(shown.0),
        None => Plan::Stays,
    }
}

// Of a token, by the number of the row whose name it shows, if it is the name of a node's member, and by the node's line context. Three
// tests are guessed better than a jump by the kind.
pub fn token_plan(
    out: &[u8],
    tree: &[u8],
    counts: TreeCounts,
    token: usize,
    named: u32,
    context: u32,
    home: usize,
    chains: &[u16],
    classes: &[ClassRow],
    members: &[MemberRow],
    pool: &[u8],
) -> Plan
    requires { FormedBy counts tree.now
        × (token < counts.tokens)
        × (named ≤ length members.now)
        × NotesTold classes.now pool.now counts tree.now out.now
        × MeantBy classes.now members.now pool.now home context
        × Chained classes.now pool.now members.now chains.now (length members.now) }
    ensures { result ≡ plan_at classes.now members.now pool.now counts tree.now out.now home
        context named token }
{
    let at = tokens_start(counts) + 12 * token;
    let kind = word_at(tree, at);
    let raw = word_at(tree, at + 4);
    if kind == 2 {
        return name_plan(out, tree, counts, classes, pool, raw);
    }
    if kind == 1 {
        return member_plan(members, named);
    }
    if kind == 3 {
        let line = context_line(chains, classes, members, pool, home, context, raw);
        return line_plan(line);
    }
    Plan::Stays
}

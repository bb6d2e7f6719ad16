// Rows of the output, and parts of the tree that stand in it as they are.
ghost use Rattle.std.specs.Prelude.{◌≡◌, ◌+◌, ◌-◌, ◌≤◌, length};
ghost use Rattle.ground.specs.Put.{put, between};
ghost use Rattle.table_rows.specs.Rows.{text};
ghost use Rattle.tree_rule.specs.Files.{name_row_bytes, count_bytes};

use table_pool::put_text;
use tree_rule::TreeCounts;
use tree_words::put_word;

// The row of a name.
pub fn put_name(out: &mut [u8], at: usize, place: u32, size: u32)
    requires { at + 8 ≤ length out.old }
    ensures { out.new ≡ put out.old at (name_row_bytes (text place size)) }
{
    put_word(out, at, place);
    put_word(out, at + 4, size);
}

// The counts.
pub fn put_counts(out: &mut [u8], counts: TreeCounts)
    requires { 16 ≤ length out.old }
    ensures { out.new ≡ put out.old 0 (count_bytes counts) }
{
    put_word(out, 0, counts.nodes);
    put_word(out, 4, counts.tokens);
    put_word(out, 8, counts.names);
    put_word(out, 12, counts.bytes);
}

// A part of the tree. There is room for it, so that it is written.
pub fn put_part(out: &mut [u8], at: usize, tree: &[u8], start: usize, end: usize)
    requires { (start ≤ «end») × («end» ≤ length tree.now) × (at + («end» - start) ≤ length out.old) }
    ensures { out.new ≡ put out.old at (between tree.now start «end») }
{
    let _ = put_text(out, at, &tree[start..end]);
}

// The whole output.
ghost use Rattle.std.specs.Prelude.{◌≡◌};
ghost use Rattle.apply_output.specs.Inner.Output.{Ready, FinishReady, finished, OutputBy};

use crate::names::put_names;
use crate::rows::{put_counts, put_part};
use table_pool::NoRoom;
use table_rows::ClassRow;
use tree_rule::TreeCounts;
use tree_words::{bytes_start, file_length, names_start, tokens_start};

// The counts, and what stands as it did in the tree: node rows, name rows and name bytes. `size` is the length of the texts that are added.
fn finish(out: &mut [u8], tree: &[u8], counts: TreeCounts, count: usize, size: usize)
    requires { FinishReady counts tree.now count size out.old }
    ensures { out.new ≡ finished counts tree.now count size out.old }
{
    let tokens = tokens_start(counts);
    let names = names_start(counts);
    let bytes = bytes_start(counts);
    let end = bytes + counts.bytes as usize;
    let laid = TreeCounts {
        nodes: counts.nodes,
        tokens: counts.tokens,
        names: counts.names + count as u32,
        bytes: counts.bytes + size as u32,
    };
    put_counts(out, laid);
    put_part(out, 16, tree, 16, tokens);
    put_part(out, names, tree, names, bytes);
    put_part(out, bytes + 8 * count, tree, bytes, end);
}

// Writes the output, to which `count` names are new; `Ok` holds its length.
pub fn write_output(
    out: &mut [u8],
    tree: &[u8],
    counts: TreeCounts,
    index: &[u16],
    classes: &[ClassRow],
    pool: &[u8],
    count: usize,
) -> Result<usize, NoRoom>
    requires { Ready index.now classes.now pool.now counts tree.now count out.old }
    ensures { OutputBy result classes.now pool.now counts tree.now count out.old out.new }
{
    let texts = file_length(counts) + 8 * count;
    if out.len() < texts {
        return Err(NoRoom);
    }
    let end = put_names(out, tree, counts, index, classes, pool, count)?;
    let size = end - texts;
    finish(out, tree, counts, count, size);
    Ok(end)
}

// What one token is to a signature.
ghost use Rattle.std.specs.Prelude.{◌≡◌, ◌<◌};
ghost use Rattle.tree_rule.specs.Trees.{name_in};
ghost use Rattle.tree_rule.specs.Files.{token_at, tree_by};
ghost use Rattle.tree_rule.specs.Signatures.{names_method};
ghost use Rattle.tree_rule.specs.Theorems.{FormedBy};
ghost use Rattle.tree_signature.specs.Inner.Tokens.{starts_as, described_as};

use tree_rule::{Token, TreeCounts};
use tree_words::{name_text, token_row, tokens_start};

// Whether a text starts `(` or does not, as `opening` asks.
pub fn starts_as(text: &[u8], opening: bool) -> bool
    ensures { result ≡ starts_as opening text.now }
{
    if text.len() < 1 {
        return !opening;
    }
    if text[0] == b'(' {
        return opening;
    }
    !opening
}

// Whether a token is a descriptor that starts `(`, or one that does not, by its raw name.
pub(crate) fn is_descriptor(tree: &[u8], counts: TreeCounts, token: usize, opening: bool) -> bool
    requires { FormedBy counts tree.now × (token < counts.tokens) }
    ensures { let f = tree.now in result ≡ described_as opening (name_in (tree_by counts f)) (token_at counts f token) }
{
    let at = tokens_start(counts) + 12 * token;
    match token_row(tree, at) {
        Token::Other { a: _, b: _ } => false,
        Token::MemberName { raw: _, display: _ } => false,
        Token::Descriptor { raw, display: _ } => starts_as(
            name_text(tree, counts, raw as usize),
            opening,
        ),
        Token::SourceLine { raw: _, display: _ } => false,
    }
}

// "Starting `(` means method": whether a token is the descriptor of a method, by its raw name.
pub fn names_method(tree: &[u8], counts: TreeCounts, token: usize) -> bool
    requires { FormedBy counts tree.now × (token < counts.tokens) }
    ensures { let f = tree.now in result ≡ names_method (name_in (tree_by counts f)) (token_at counts f token) }
{
    is_descriptor(tree, counts, token, true)
}

// What is planned for a new name, by the two numbers that stand in the place of its row.
ghost use Rattle.std.specs.Prelude.{◌≡◌};
ghost use Rattle.apply_output.specs.Inner.Plan.{PlanReady, plan_at};

use tree_rule::TreeCounts;
use tree_words::{bytes_start, names_start, word_at};

#[derive(Clone, Copy)]
pub enum Plan {
    // A text of the pool.
    InPool {
        place: u32,
        length: u32,
    },
    // A name of the tree with its known pieces shown; the first one starts at the place `start` and is that of a class row.
    Shown {
        name: usize,
        start: usize,
        row: usize,
    },
}

// Of the new name with a number; where a name of the tree is meant, its note says where the first known piece is.
pub fn plan_at(out: &[u8], counts: TreeCounts, number: usize) -> Plan
    requires { PlanReady counts out.now number }
    ensures { result ≡ plan_at counts out.now number }
{
    let at = bytes_start(counts) + 8 * number;
    let first = word_at(out, at);
    let second = word_at(out, at + 4);
    if first == 0 {
        let name = second as usize;
        let note = names_start(counts) + 8 * name;
        let start = word_at(out, note);
        let row = word_at(out, note + 4);
        return Plan::Shown {
            name,
            start: start as usize - 1,
            row: row as usize,
        };
    }
    Plan::InPool {
        place: first - 1,
        length: second,
    }
}

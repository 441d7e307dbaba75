// The ready side of a level's head pair, taken and split down to the asked level.
ghost use Rattle.std.specs.Prelude.{◌≡◌, ◌-◌, ◌≤◌, ◌<◌, length, get_or};
ghost use Rattle.counter.specs.Limits.{levels_most, pairs_most, loans_most};
ghost use Rattle.buddy_rules.specs.Nodes.{free_word};
ghost use Rattle.buddy_rules.specs.Levels.{side_of};
ghost use Rattle.buddy_rules.specs.Level.{tag_at, pair_cell, ring_head, acquired, level_start};
ghost use Rattle.buddy_rules.specs.Moves.{ready_node, split_down};
ghost use Rattle.buddy_levels.specs.Sides.{side_said};
ghost use Rattle.buddy_levels.specs.Stands.{Leaves};
ghost use Rattle.buddy_moves.specs.Roomy.{Roomy};

use buddy_levels::{Side, level_from};
use buddy_rules::FREE_WORD;

// The head pair h of the level `from`, ready at this side. A side of the asked level itself is the loan's at once.
// Tells the loan's node.
pub fn take_side(
    tree: &mut [u64],
    pairs: usize,
    level: usize,
    from: usize,
    h: u64,
    side: Side,
    chunk: u64,
    offset: u64,
    loan: u64,
) -> u64
    requires pairs_le_pairs_most { (pairs ≤ pairs_most) × (level ≤ from) × (from < levels_most) × (loan < loans_most) × (h < pairs) × (level_start pairs levels_most ≤ length tree.old) }
    requires h_value { (h ≡ ring_head (level_start pairs from) tree.old) × (side_said side ≡ side_of (get_or tree.old (pair_cell (level_start pairs from) tag_at h) 0)) }
    requires leaves { Leaves (level_start pairs from) h tree.old }
    requires roomy { Roomy pairs level chunk offset (ready_node pairs from tree.old) (from - level) (acquired (level_start pairs from) free_word tree.old) }
    ensures value { result ≡ (split_down pairs level chunk offset loan (ready_node pairs from tree.old) (from - level) (acquired (level_start pairs from) free_word tree.old)).node }
    ensures tree_after { tree.new ≡ (split_down pairs level chunk offset loan (ready_node pairs from tree.old) (from - level) (acquired (level_start pairs from) free_word tree.old)).room }
{
    let base = level_from(pairs, from);
    let node = buddy_levels::node_of(h, side);
    if from == level {
        buddy_levels::acquire(tree, base, h, side, buddy_levels::loan_word(loan));
        node
    } else {
        buddy_levels::acquire(tree, base, h, side, FREE_WORD);
        buddy_moves::split_down(tree, pairs, level, from - level, chunk, offset, loan, node)
    }
}

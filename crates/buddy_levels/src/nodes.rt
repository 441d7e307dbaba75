// What the word of a node says, and the pair of a node; specs/Nodes of buddy_rules has the same names. Here and in sides.rt alone
// these numbers are worked out.
ghost use Rattle.std.specs.Prelude.{◌≡◌, ◌<◌};
ghost use Rattle.counter.specs.Limits.{pairs_most, loans_most};
ghost use Rattle.buddy_rules.specs.Nodes.{loan_word, split_word, says_loan, loan_said, pair_said, pair_of};

// The word of a node that is on loan k.
pub fn loan_word(k: u64) -> u64
    requires { k < loans_most }
    ensures { result ≡ loan_word k }
{
    2 * k + 1
}

// The word of a node that is split into the pair p.
pub fn split_word(p: u64) -> u64
    requires { p < pairs_most }
    ensures { result ≡ split_word p }
{
    2 * p + 2
}

// Whether a word says that its node is on loan, and which loan.
pub fn says_loan(w: u64) -> bool
    ensures { result ≡ says_loan w }
{
    w % 2 == 1
}

pub fn loan_said(w: u64) -> u64
    ensures { result ≡ loan_said w }
{
    w / 2
}

// Which pair a split node's word says.
pub fn pair_said(w: u64) -> u64
    requires { 1 < w }
    ensures { result ≡ pair_said w }
{
    w / 2 - 1
}

pub fn pair_of(node: u64) -> u64
    ensures { result ≡ pair_of node }
{
    node / 2
}

ghost use Rattle.std.specs.Prelude.{◌≡◌, ℕ, ◌+◌, ◌-◌, ◌^◌, ◌<◌, ◌≤◌, true, [], ◌∷◌, sum_by};
ghost use Rattle.shape.specs.Children.{children, closes, kids, leaves, pieces_in, under};
ghost use Rattle.shape.specs.Counted.{Adds, pieces_before, widened, path, span};
ghost use Rattle.grammar.specs.declared.rule.Child.{Child};

use grammar::rule::Child;
use tree::node::{Node, Shape};

// What is counted from the node before a node towards the front: the pieces before that node, and the trees before it that no
// node above them has been found for.
#[derive(Clone, Copy, Default)]
pub struct Path {
    pub(crate) pieces: usize,
    pub(crate) trees: usize,
}

// How many nodes a child is: one or none.
fn kid(child: Child) -> usize
    ensures { (result ≡ kids (child ∷ [])) × (result ≤ 1) }
{
    match child {
        Child::Piece => 0,
        Child::Node => 1,
    }
}

// How many pieces a child is: one or none.
fn leaf(child: Child) -> usize
    ensures { (result ≡ leaves (child ∷ [])) × (result ≤ 1) }
{
    1 - kid(child)
}

// What is counted of each child of a node, one at most, added up.
fn add_up<F: Fn(Child) -> usize>(shape: Shape, count: F) -> usize
    requires callable { F.IsAlwaysCallable count }
    requires few { (c : Child) (n : ℕ) → F.post count c n → n ≤ 1 }
    ensures { Adds (F.post count) (children shape) result }
{
    match shape {
        Shape::One(x) => count(x),
        Shape::Two(x, y) => count(x) + count(y),
        Shape::Three(x, y, z) => count(x) + count(y) + count(z),
    }
}

// How many nodes stand directly under a node.
fn kid_count(shape: Shape) -> usize
    ensures { (result ≡ kids (children shape)) × (result ≤ 3) }
{
    add_up(shape, kid)
}

// How many pieces stand directly under a node.
fn leaf_count(shape: Shape) -> usize
    ensures { (result ≡ leaves (children shape)) × (result ≤ 3) }
{
    add_up(shape, leaf)
}

// How many of the pieces under a node come before its kid of that number.
fn leaves_before(shape: Shape, number: usize) -> usize
    ensures { (result ≡ pieces_before number (children shape)) × (result ≤ leaves (children shape)) }
{
    match (shape, number) {
        (Shape::One(x), _) => leaf(x),
        (Shape::Two(Child::Node, _) | Shape::Three(Child::Node, _, _), 0) => 0,
        (Shape::Two(x, y), _) => leaf(x) + leaf(y),
        (Shape::Three(x, Child::Node, _), 0) => leaf(x),
        (Shape::Three(Child::Node, Child::Node, _), 1) => 0,
        (Shape::Three(x, y, z), _) => leaf(x) + leaf(y) + leaf(z),
    }
}

impl Path {
    // The same with one node more in front.
    fn widen(self, shape: Shape) -> Path
        requires { (self.pieces ≤ 128) × (self.trees < 2 ^ 64 - 1) }
        ensures { result ≡ widened (children shape) self }
    {
        let kids = kid_count(shape);
        if kids <= self.trees {
            Path {
                pieces: self.pieces + leaf_count(shape),
                trees: self.trees - kids + 1,
            }
        } else {
            Path {
                pieces: self.pieces + leaves_before(shape, self.trees),
                trees: 0,
            }
        }
    }
}

// What is counted over all these nodes, from the last one to the first.
pub(crate) fn count_path(nodes: &[Node]) -> Path
    requires { pieces_in nodes.now ≤ 128 }
    ensures { result ≡ path nodes.now }
{
    let mut so_far = Path::default();
    for node in nodes.iter().rev() {
        so_far = so_far.widen(node.shape);
    }
    so_far
}

// How many nodes the first tree has.
pub(crate) fn count_nodes(nodes: &[Node]) -> usize
    requires { (k : ℕ) × (closes (k + 1) nodes.now ≡ true) }
    ensures { result ≡ span 1 nodes.now }
{
    let mut owed = 1;
    // Its number is the answer; a `take_while` would have to change what is owed as it asks.
    for (i, node) in nodes.iter().enumerate() {
        if owed == 0 {
            return i;
        }
        owed = owed - 1 + kid_count(node.shape);
    }
    nodes.len()
}

// How many pieces stand directly under these nodes.
pub(crate) fn count_pieces(nodes: &[Node]) -> usize
    requires { sum_by (λ n. leaves (under n)) nodes.now ≤ 128 }
    ensures { result ≡ sum_by (λ n. leaves (under n)) nodes.now }
{
    nodes.iter().map(|node| leaf_count(node.shape)).sum()
}

// The grid in memory that is handed in.
ghost use Rattle.std.specs.Prelude.{◌≡◌, ℕ, ◌≤◌, true, [], ◌++◌, length, drop, replicate};
ghost use Rattle.filters.specs.Rules.{better};
ghost use Rattle.grid.specs.declared.node.Node.TheVariants.{Empty};
ghost use Rattle.grid.specs.Nodes.{sound, bare};
ghost use Rattle.grid.specs.Derived.{Derived};

use crate::node::Node;
use kinds::address::Address;
use kinds::cost::Cost;
use std::marker::PhantomData;

// The grid of a list of filters of address kinds D and S and cost kind C. Place 0 is the destination root where there is one;
// the first `used` places hold the nodes, every link is below `used`, and every place behind is empty.
#[derive(Drop)]
pub struct Grid<'m, D: Address, S: Address, C: Cost> {
    pub(crate) nodes: &'m mut [Node],
    pub(crate) used: u32,
    kinds: PhantomData<(D, S, C)>,
    ghost fits: { used ≤ length nodes.now },
    ghost linked: { sound used nodes.now ≡ true },
    ghost rest: { bare (drop used nodes.now) ≡ true },
}

// Empties the first `count` places.
pub(crate) fn empty_first(nodes: &mut [Node], count: usize)
    requires { count ≤ length nodes.old }
    ensures { nodes.new ≡ replicate count Empty ++ drop count nodes.old }
{
    nodes[..count].fill(Node::Empty);
}

impl<'m, D: Address, S: Address, C: Cost> Grid<'m, D, S, C> {
    // The grid of no filters. Every place is made empty, whatever it held.
    pub fn new(nodes: &'m mut [Node]) -> Self
        ensures count { result.used ≡ 0 }
        ensures memory { result.nodes.now ≡ replicate (length nodes.old) Empty }
        ensures grid { Derived (better C.Cost.order) [] result.nodes.now result.used }
    {
        let count = nodes.len();
        empty_first(nodes, count);
        Grid {
            nodes,
            used: 0,
            kinds: PhantomData,
        }
    }

    // How many nodes the grid has.
    pub fn len(&self) -> u32
        ensures { result ≡ self.now.used }
    {
        self.used
    }
}

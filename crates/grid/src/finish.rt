// The finishing of nodes: switches, and the best of what is kept. Each source path is walked with two places: the node to finish, and
// the node beside it, which is that of the same source string at the longest shorter destination that has one.
ghost use Rattle.std.specs.Prelude.{◌≡◌, ◌+◌, ◌≤◌, ◌++◌, length, take, drop, None, slice_set};
ghost use Rattle.filters.specs.Meaning.{prefix_of, rules, held};
ghost use Rattle.grid.specs.Nodes.{node_at, kept_of};
ghost use Rattle.grid.specs.Edits.{finish_in};
ghost use Rattle.grid.specs.Finish.{node_if, child_from, roots, finish_at, trek_on, trek, finish_path, finish_length, finish_below};

use crate::node::{Kept, Node};
use filters::filter::{Prefix, Record};
use kinds::address::Address;
use kinds::cost::Cost;

// The node at a place; beyond the memory there is none.
fn look(nodes: &[Node], at: u32) -> Node
    ensures { result ≡ node_at nodes.now at }
{
    nodes.get(at as usize).copied().unwrap_or(Node::Empty)
}

// The node at a place, where there is a place.
fn look_if(nodes: &[Node], at: Option<u32>) -> Node
    ensures { result ≡ node_if nodes.now at }
{
    at.map_or(Node::Empty, |at| look(nodes, at))
}

// The place of the child by a bit, or the place itself where there is no child.
fn child_from(nodes: &[Node], at: u32, bit: bool) -> u32
    ensures { result ≡ child_from nodes.now at bit }
{
    look(nodes, at).child(bit).unwrap_or(at)
}

// The root of the source trie of a destination string, and that of the longest shorter one on the way to it.
fn roots_of<A: Address>(nodes: &[Node], path: &Prefix<A>) -> (Option<u32>, Option<u32>)
    ensures { result ≡ roots nodes.now 0 None (prefix_of A.Address.string path.now) }
{
    let (at, last) = path.bits().fold((0, None), |(at, last), bit| {
        (
            child_from(nodes, at, bit),
            look(nodes, at).source().or(last),
        )
    });
    (look(nodes, at).source(), last)
}

// How far the finishing of a path has come: the place that was finished last, the node beside it, and what is kept there.
#[derive(Clone, Copy)]
struct Trek {
    at: u32,
    beside: Node,
    kept: Option<Kept>,
}

impl Trek {
    // Finishes the node at a place.
    fn place(nodes: &mut [Node], at: u32, beside: Node, above: Option<Kept>) -> Trek
        ensures { (nodes.new, result) ≡ finish_at nodes.old at beside above }
    {
        let mut node = look(nodes, at);
        node.finish(beside, above);
        // not get_mut: what a write through it leaves has no name that a proof can cite
        if (at as usize) < nodes.len() {
            nodes[at as usize] = node;
        }
        Trek {
            at,
            beside,
            kept: node.kept(),
        }
    }

    // Finishes the next node, by a bit.
    fn onward(self, nodes: &mut [Node], bit: bool) -> Trek
        ensures { (nodes.new, result) ≡ trek_on (nodes.old, self) bit }
    {
        let next = child_from(nodes, self.at, bit);
        let beside = look_if(nodes, self.beside.next(bit));
        Trek::place(nodes, next, beside, self.kept)
    }
}

// Finishes the nodes of a source path, from the root of its trie on.
fn finish_path<A: Address>(nodes: &mut [Node], top: u32, beside: Node, path: &Prefix<A>)
    ensures { nodes.new ≡ (trek (finish_at nodes.old top beside None) (prefix_of A.Address.string path.now)).0 }
{
    let mut trek = Trek::place(nodes, top, beside, None);
    // not a fold: nothing is proved of a closure that writes to memory that it captures
    for bit in path.bits() {
        trek = trek.onward(nodes, bit);
    }
}

// Finishes the source path of a filter.
fn finish<D: Address, S: Address>(nodes: &mut [Node], to: &Prefix<D>, from: &Prefix<S>)
    ensures { nodes.new ≡ finish_path nodes.old (prefix_of D.Address.string to.now) (prefix_of S.Address.string from.now) }
{
    let (top, last) = roots_of(nodes, to);
    if let Some(top) = top {
        let beside = look_if(nodes, last);
        finish_path(nodes, top, beside, from);
    }
}

// How many bits a prefix has that is kept as a pattern.
fn bits_of<A: Address>(kept: &Prefix<A::Pattern>) -> u32
    ensures { result ≡ length (prefix_of A.Address.spells kept.now) }
{
    (kept.length as u32).min(A::WIDTH)
}

// Finishes what a place holds, if it holds a filter whose destination has so many bits.
fn finish_record<D: Address, S: Address, C: Cost>(
    nodes: &mut [Node],
    place: &Record<D, S, C>,
    size: u32,
)
    ensures { nodes.new ≡ finish_length size nodes.old (held D.Address.spells S.Address.spells C.Written.reads place.now) }
{
    if C::read(place.cost).is_ok() && bits_of::<D>(&place.destination) == size {
        let to = Prefix::<D>::of(&place.destination);
        let from = Prefix::<S>::of(&place.source);
        finish(nodes, &to, &from);
    }
}

// Finishes the filters whose destination has so many bits.
fn finish_length<D: Address, S: Address, C: Cost>(
    nodes: &mut [Node],
    records: &[Record<D, S, C>],
    size: u32,
)
    ensures { nodes.new ≡ finish_length size nodes.old (rules D.Address.spells S.Address.spells C.Written.reads records.now) }
{
    for place in records {
        finish_record::<D, S, C>(nodes, place, size);
    }
}

// Finishes all filters, the shorter destinations first.
fn finish_all<D: Address, S: Address, C: Cost>(nodes: &mut [Node], records: &[Record<D, S, C>])
    ensures { nodes.new ≡ finish_below (D.Address.WIDTH + 1) nodes.old (rules D.Address.spells S.Address.spells C.Written.reads records.now) }
{
    for size in 0..=D::WIDTH {
        finish_length::<D, S, C>(nodes, records, size);
    }
}

// Finishes all filters in the first `count` places.
pub(crate) fn finish_first<D: Address, S: Address, C: Cost>(
    nodes: &mut [Node],
    count: usize,
    records: &[Record<D, S, C>],
)
    requires { count ≤ length nodes.old }
    ensures { nodes.new ≡ finish_below (D.Address.WIDTH + 1) (take count nodes.old) (rules D.Address.spells S.Address.spells C.Written.reads records.now) ++ drop count nodes.old }
{
    finish_all::<D, S, C>(&mut nodes[..count], records);
}

// The search: down the destination trie, then along the source tries by children and switches. Both halves are one walk by the bits of
// an address, and a search notes the places that it visits where there is memory for them.
ghost use Rattle.std.specs.Prelude.{◌≡◌, ℕ, ◌+◌, ◌<◌, ◌≤◌, Bool, true, List, length, None, Option, slice_set};
ghost use Rattle.std.proofs.lemmas.List.Edits.{sets};
ghost use Rattle.filters.specs.Directives.{named};
ghost use Rattle.filters.specs.Rules.{Rule, better, linear};
ghost use Rattle.filters.specs.Orders.{Apart};
ghost use Rattle.tries.specs.Search.{visits};
ghost use Rattle.grid.specs.declared.node.Node.{Node};
ghost use Rattle.grid.specs.Nodes.{within, links_within, sound, child_of, next_of};
ghost use Rattle.grid.specs.Inside.{child_inside, next_inside};
ghost use Rattle.grid.specs.Derived.{Derived};
ghost use Rattle.grid.specs.Steps.{last_root, better_kept, visited, stepped, along, places, told};
ghost use Rattle.grid.specs.Trails.{Noted};

use crate::grid::Grid;
use crate::node::{Kept, Node, pick_kept};
use filters::directive::Directive;
use kinds::address::Address;
use kinds::bits::Bits;
use kinds::cost::Cost;

// How far a walk has come: the node that it is at, what it keeps of the nodes that were visited, and how many they are.
#[derive(Clone, Copy)]
pub struct Walk<K> {
    pub(crate) at: u32,
    pub(crate) kept: Option<K>,
    pub(crate) visits: u32,
}

// A half of the search: where it goes from a node, and what it keeps of a node that it visits.
pub(crate) trait Half {
    type Kept: Copy;

    ghost leads: { Node → Bool → Option ℕ };

    ghost keeps: { Option Self.Kept → Node → Option Self.Kept };

    // Where it goes by a bit.
    fn next(node: Node, bit: bool) -> Option<u32>
        ensures { result ≡ leads node bit };

    // What it keeps once a node is visited, `last` being what it kept before.
    fn keep(last: Option<Self::Kept>, node: Node) -> Option<Self::Kept>
        ensures { result ≡ keeps last node };

    // it goes nowhere but where the node's links lead
    ghost inside: { (used : ℕ) (node : Node) (b : Bool) → links_within used node ≡ true → within used (leads node b) ≡ true };
}

// Down the destination trie; it keeps the last source root that it passed.
pub(crate) struct Down;

impl Half for Down {
    type Kept = u32;

    ghost leads = { child_of };

    ghost keeps = { last_root };

    ghost inside = { child_inside };

    fn next(node: Node, bit: bool) -> Option<u32>
        ensures { result ≡ child_of node bit }
    {
        node.child(bit)
    }

    fn keep(last: Option<u32>, node: Node) -> Option<u32>
        ensures { result ≡ last_root last node }
    {
        node.source().or(last)
    }
}

// Along the source tries, to the child or along the switch; it keeps the best filter that it met.
pub(crate) struct On;

impl Half for On {
    type Kept = Kept;

    ghost leads = { next_of };

    ghost keeps = { better_kept };

    ghost inside = { next_inside };

    fn next(node: Node, bit: bool) -> Option<u32>
        ensures { result ≡ next_of node bit }
    {
        node.next(bit)
    }

    fn keep(last: Option<Kept>, node: Node) -> Option<Kept>
        ensures { result ≡ better_kept last node }
    {
        pick_kept(last, node.kept())
    }
}

// Writes the place of the node that is visited after so many; where the trail has no place for it, nothing is written.
fn note(trail: &mut [u32], visits: u32, at: u32)
    ensures { trail.new ≡ slice_set trail.old visits at }
{
    if (visits as usize) < trail.len() {
        trail[visits as usize] = at;
    }
}

// Visits the node at a place and notes it, behind what a walk has visited so far.
fn visit<H: Half>(nodes: &[Node], walk: Walk<H::Kept>, at: u32, trail: &mut [u32]) -> Walk<H::Kept>
    requires inside { at < length nodes.now }
    requires few { walk.visits < u32.MAX }
    ensures state { result ≡ visited H.keeps nodes.now walk.kept walk.visits at }
    ensures notes { trail.new ≡ slice_set trail.old walk.visits at }
{
    note(trail, walk.visits, at);
    Walk {
        at,
        kept: H::keep(walk.kept, nodes[at as usize]),
        visits: walk.visits + 1,
    }
}

// The walk from the node at a place, by the bits of an address, when so many nodes have been visited before.
#[inline(always)]
fn follow<H: Half, A: Address>(
    nodes: &[Node],
    start: u32,
    before: u32,
    address: &A,
    trail: &mut [u32],
) -> Walk<H::Kept>
    requires inside { start < length nodes.now }
    requires linked { sound (length nodes.now) nodes.now ≡ true }
    requires few { before ≤ 129 }
    ensures end { result ≡ along (stepped H.leads H.keeps nodes.now) (visited H.keeps nodes.now None before start) (A.Address.string address.now) }
    ensures few { result.visits ≤ before + 1 + A.Address.WIDTH }
    ensures notes { trail.new ≡ sets trail.old before (places H.leads H.keeps nodes.now (visited H.keeps nodes.now None before start) (A.Address.string address.now)) }
{
    let none = Walk {
        at: start,
        kept: None,
        visits: before,
    };
    let mut walk = visit::<H>(nodes, none, start, trail);
    for bit in Bits::of(address) {
        let Some(at) = H::next(nodes[walk.at as usize], bit) else {
            return walk;
        };
        walk = visit::<H>(nodes, walk, at, trail);
    }
    walk
}

// What is told of the filter that was kept: its label and its directive.
fn tell(best: Option<Kept>) -> Option<(u16, Directive)>
    ensures { result ≡ told best }
{
    best.map(|kept| (kept.label, kept.directive))
}

impl<'m, D: Address, S: Address, C: Cost> Grid<'m, D, S, C> {
    // The search of two addresses. It notes every visit in the trail, at the place of its number, as far as the trail has places; it is
    // compiled into both of its callers, so that a search with no trail pays nothing for notes.
    #[inline(always)]
    pub(crate) fn lookup(
        &self,
        destination: &D,
        source: &S,
        trail: &mut [u32],
    ) -> (Option<(u16, Directive)>, u32)
        ensures best { (F : List (Rule C)) → Apart F → Derived (better C.Cost.order) F self.now.nodes.now self.now.used → result.0 ≡ named (linear (better C.Cost.order) F (D.Address.string destination.now) (S.Address.string source.now)) }
        ensures visits { (F : List (Rule C)) → Derived (better C.Cost.order) F self.now.nodes.now self.now.used → result.1 ≡ visits F (D.Address.string destination.now) (S.Address.string source.now) }
        ensures notes { (F : List (Rule C)) → (g : Derived (better C.Cost.order) F self.now.nodes.now self.now.used) → D.Address.WIDTH + S.Address.WIDTH + 2 ≤ length trail.old → Noted g.keys F (D.Address.string destination.now) (S.Address.string source.now) trail.old trail.new }
    {
        if self.used == 0 {
            return (None, 0);
        }
        let nodes = &*self.nodes;
        let down = follow::<Down, D>(nodes, 0, 0, destination, trail);
        match down.kept {
            None => (None, down.visits),
            Some(root) => {
                let walk = follow::<On, S>(nodes, root, down.visits, source, trail);
                (tell(walk.kept), walk.visits)
            }
        }
    }

    // The best filter that matches the two addresses, by its label and directive, and how many nodes were visited. Nothing is refused.
    pub fn classify(&self, destination: &D, source: &S) -> (Option<(u16, Directive)>, u32)
        ensures best { (F : List (Rule C)) → Apart F → Derived (better C.Cost.order) F self.now.nodes.now self.now.used → result.0 ≡ named (linear (better C.Cost.order) F (D.Address.string destination.now) (S.Address.string source.now)) }
        ensures visits { (F : List (Rule C)) → Derived (better C.Cost.order) F self.now.nodes.now self.now.used → result.1 ≡ visits F (D.Address.string destination.now) (S.Address.string source.now) }
    {
        self.lookup(destination, source, &mut [])
    }
}

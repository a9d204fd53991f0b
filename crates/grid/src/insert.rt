// The insertion of filters: their paths in the tries, and what they leave at the end of them.
ghost use Rattle.std.specs.Prelude.{◌≡◌, ◌+◌, ◌<◌, ◌≤◌, max, true, List, [], length, Some, None, Option};
ghost use Rattle.kinds.specs.Strings.{Str};
ghost use Rattle.filters.specs.Meaning.{prefix_of};
ghost use Rattle.grid.specs.Derived.{Key, key_eq, place};
ghost use Rattle.grid.specs.Build.{Room, most_used, State, Grown, Inserted, reached, goes, in_trie, above};

use crate::edit::Way;
use crate::grid::Grid;
use crate::node::{Kept, Links, Node};
use filters::filter::Prefix;
use kinds::address::Address;
use kinds::cost::Cost;

impl<'m, D: Address, S: Address, C: Cost> Grid<'m, D, S, C> {
    // The node that a way leads to from the node at `at`: the one that is there, or a new one at the first place behind.
    fn extend(&mut self, at: u32, way: Way) -> u32
        requires start { at < self.old.used }
        requires room { Room (self.old.used + 1) self.old.nodes.now }
        ensures found { result < self.new.used }
        ensures least { self.old.used ≤ self.new.used }
        ensures most { self.new.used ≤ self.old.used + 1 }
        ensures places { length self.new.nodes.now ≡ length self.old.nodes.now }
        ensures grid { (own : Str → Str → Option Kept) (keys : List Key) (k : Key) → State own keys self.old.nodes.now self.old.used → place k keys ≡ Some at → goes k way ≡ true → Grown own keys (λ l. key_eq l (reached k way)) (reached k way) self.new.nodes.now self.new.used result }
    {
        let Grid { nodes, used, .. } = self;
        let node = nodes[at as usize];
        match node.lead(way) {
            Some(next) => next,
            None => {
                let next = *used;
                nodes[next as usize] = node.bud(way);
                nodes[at as usize].lead_to(way, next);
                *used = next + 1;
                next
            }
        }
    }

    // Makes the root of the destination trie where there is no node.
    fn plant(&mut self)
        requires room { 0 < length self.old.nodes.now }
        ensures count { self.new.used ≡ max 1 self.old.used }
        ensures places { length self.new.nodes.now ≡ length self.old.nodes.now }
        ensures grid { (own : Str → Str → Option Kept) (keys : List Key) → State own keys self.old.nodes.now self.old.used → Grown own keys (λ l. key_eq l (in_trie None [])) (in_trie None []) self.new.nodes.now self.new.used 0 }
    {
        let Grid { nodes, used, .. } = self;
        if *used == 0 {
            nodes[0] = Node::Destination {
                children: Links::NONE,
                source: None,
            };
            *used = 1;
        }
    }

    // The node at the end of a path from the root of a trie, made with all on the way to it that is not there.
    fn insert_path<A: Address>(&mut self, start: u32, path: &Prefix<A>) -> u32
        requires start { start < self.old.used }
        requires room { Room (self.old.used + length (prefix_of A.Address.string path.now)) self.old.nodes.now }
        ensures found { result < self.new.used }
        ensures least { self.old.used ≤ self.new.used }
        ensures most { self.new.used ≤ self.old.used + length (prefix_of A.Address.string path.now) }
        ensures places { length self.new.nodes.now ≡ length self.old.nodes.now }
        ensures grid { (own : Str → Str → Option Kept) (keys : List Key) (o : Option Str) → State own keys self.old.nodes.now self.old.used → place (in_trie o []) keys ≡ Some start → Grown own keys (above (in_trie o (prefix_of A.Address.string path.now))) (in_trie o (prefix_of A.Address.string path.now)) self.new.nodes.now self.new.used result }
    {
        let mut at = start;
        // not a fold: nothing is proved of a closure that writes to memory that it captures
        for bit in path.bits() {
            at = self.extend(at, Way::Down(bit));
        }
        at
    }

    // Inserts both paths of a filter, and offers what is to be kept to the node at the end of the second.
    pub(crate) fn insert(&mut self, to: &Prefix<D>, from: &Prefix<S>, kept: Kept)
        requires room { Room (most_used self.old.used D.Address.WIDTH S.Address.WIDTH) self.old.nodes.now }
        ensures most { self.new.used ≤ most_used self.old.used D.Address.WIDTH S.Address.WIDTH }
        ensures places { length self.new.nodes.now ≡ length self.old.nodes.now }
        ensures grid { (own : Str → Str → Option Kept) (keys : List Key) → State own keys self.old.nodes.now self.old.used → Inserted own keys (prefix_of D.Address.string to.now) (prefix_of S.Address.string from.now) kept self.new.nodes.now self.new.used }
    {
        self.plant();
        let leaf = self.insert_path(0, to);
        let root = self.extend(leaf, Way::Root);
        let end = self.insert_path(root, from);
        let Grid { nodes, .. } = self;
        nodes[end as usize].keep(kept);
    }
}

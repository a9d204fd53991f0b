// Nodes in the making: new nodes, links to them, what they keep, and their switches.
ghost use Rattle.std.specs.Prelude.{◌≡◌};
ghost use Rattle.grid.specs.Edits.{lead_of, leading, bud_of, keep_in, switched, finish_in};

use crate::node::{Kept, Links, Node, pick_kept};

// The ways from a node to one that hangs on it: by a bit in the same trie, or from a destination node to the root of its source trie.
// Not Option<bool>: the root is a way too, and None would read as none.
#[derive(Clone, Copy)]
pub(crate) enum Way {
    Down(bool),
    Root,
}

// A switch, which there is only where there is no child.
fn switch_beside(child: Option<u32>, to: Option<u32>) -> Option<u32>
    ensures { result ≡ switched child to }
{
    if child.is_some() { None } else { to }
}

impl Node {
    // Where the node leads by a way.
    pub(crate) fn lead(self, way: Way) -> Option<u32>
        ensures { result ≡ lead_of self way }
    {
        match way {
            Way::Down(bit) => self.child(bit),
            Way::Root => self.source(),
        }
    }

    // Gives the node a link by a way.
    pub(crate) fn lead_to(&mut self, way: Way, to: u32)
        ensures { self.new ≡ leading self.old way to }
    {
        match self {
            Node::Empty => {}
            Node::Destination { children, source } => match way {
                Way::Down(bit) => *children = children.with(bit, to),
                Way::Root => *source = Some(to),
            },
            // not an or-pattern with the arm above: its proof is not made yet
            Node::Source { children, .. } => {
                if let Way::Down(bit) = way {
                    *children = children.with(bit, to);
                }
            }
        }
    }

    // The node that a way leads to when it is new: it leads nowhere and keeps nothing.
    pub(crate) fn bud(self, way: Way) -> Node
        ensures { result ≡ bud_of self way }
    {
        match (self, way) {
            (Node::Empty, _) => Node::Empty,
            (Node::Destination { .. }, Way::Down(_)) => Node::Destination {
                children: Links::NONE,
                source: None,
            },
            _ => Node::Source {
                children: Links::NONE,
                switches: Links::NONE,
                kept: None,
            },
        }
    }

    // Keeps the better of what the node keeps and one more.
    pub(crate) fn keep(&mut self, more: Kept)
        ensures { self.new ≡ keep_in self.old more }
    {
        if let Node::Source { kept, .. } = self {
            *kept = pick_kept(*kept, Some(more));
        }
    }

    // Finishes the node: by each bit without a child its switch leads where `beside` leads, and it keeps the best of what it
    // keeps, what its parent keeps and what `beside` keeps.
    pub(crate) fn finish(&mut self, beside: Node, above: Option<Kept>)
        ensures { self.new ≡ finish_in self.old beside above }
    {
        if let Node::Source {
            children,
            switches,
            kept,
        } = self
        {
            *switches = Links {
                zero: switch_beside(children.zero, beside.next(false)),
                one: switch_beside(children.one, beside.next(true)),
            };
            *kept = pick_kept(pick_kept(*kept, above), beside.kept());
        }
    }
}

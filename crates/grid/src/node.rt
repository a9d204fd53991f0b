// A node of the grid. How it is laid out is known in this file alone; all else goes by the readings.
ghost use Rattle.std.specs.Prelude.{◌≡◌, ℕ};
ghost use Rattle.grid.specs.Nodes.{no_links, link_by, link_with, child_of, switch_of, next_of, root_of, kept_of, pick_kept};

use filters::directive::Directive;
use std::mem::size_of;

// The best filter that a source node knows of, and its standing: how many filters are better than it.
#[derive(Clone, Copy)]
pub struct Kept {
    pub label: u16,
    pub standing: u16,
    pub directive: Directive,
}

// Links by bit 0 and 1: places in the memory of nodes, and no boxes, since that memory is lent and there is no heap.
#[derive(Clone, Copy)]
pub struct Links {
    pub zero: Option<u32>,
    pub one: Option<u32>,
}

impl Links {
    // No links.
    pub(crate) const NONE: Links = Links {
        zero: None,
        one: None,
    };

    // The link by a bit.
    pub(crate) fn by(self, bit: bool) -> Option<u32>
        ensures { result ≡ link_by self bit }
    {
        if bit { self.one } else { self.zero }
    }

    // The links with another by a bit.
    pub(crate) fn with(self, bit: bool, to: u32) -> Links
        ensures { result ≡ link_with self bit to }
    {
        Links {
            zero: if bit { self.zero } else { Some(to) },
            one: if bit { Some(to) } else { self.one },
        }
    }
}

// Empty stands where there is no node.
#[derive(Clone, Copy)]
pub enum Node {
    Empty,
    // its children, and the root of its source trie
    Destination {
        children: Links,
        source: Option<u32>,
    },
    // its children, its switches, and what it keeps
    Source {
        children: Links,
        switches: Links,
        kept: Option<Kept>,
    },
}

impl Node {
    // How many bytes of memory a node takes.
    pub fn size_in_bytes() -> usize
        ensures { result ≡ 52 }
    {
        size_of::<Node>()
    }

    // The child by a bit.
    pub(crate) fn child(self, bit: bool) -> Option<u32>
        ensures { result ≡ child_of self bit }
    {
        match self {
            Node::Empty => None,
            Node::Destination { children, .. } => children.by(bit),
            Node::Source { children, .. } => children.by(bit),
        }
    }

    // The switch by a bit.
    pub(crate) fn switch_to(self, bit: bool) -> Option<u32>
        ensures { result ≡ switch_of self bit }
    {
        match self {
            Node::Source { switches, .. } => switches.by(bit),
            _ => None,
        }
    }

    // Where a search goes by a bit: to the child, or else along the switch.
    pub(crate) fn next(self, bit: bool) -> Option<u32>
        ensures { result ≡ next_of self bit }
    {
        self.child(bit).or_else(|| self.switch_to(bit))
    }

    // The root of the source trie that a destination node leads to.
    pub(crate) fn source(self) -> Option<u32>
        ensures { result ≡ root_of self }
    {
        match self {
            Node::Destination { source, .. } => source,
            _ => None,
        }
    }

    // What a source node keeps.
    pub(crate) fn kept(self) -> Option<Kept>
        ensures { result ≡ kept_of self }
    {
        match self {
            Node::Source { kept, .. } => kept,
            _ => None,
        }
    }
}

// Of two that are kept, the one of the lower standing; the first where neither is lower.
pub(crate) fn pick_kept(first: Option<Kept>, second: Option<Kept>) -> Option<Kept>
    ensures { result ≡ pick_kept first second }
{
    match (first, second) {
        (None, other) => other,
        (Some(one), Some(other)) if other.standing < one.standing => second,
        _ => first,
    }
}

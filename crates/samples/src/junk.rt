// What memory holds before anyone writes it: here, records and nodes that would mislead whoever trusted them.
use filters::directive::Directive;
use filters::filter::{Filter, Prefix};
use grid::node::{Kept, Links, Node};

// A source node with both children, both switches and a kept filter that nothing beats.
pub fn node() -> Node {
    Node::Source {
        children: Links {
            zero: Some(1),
            one: Some(2),
        },
        switches: Links {
            zero: Some(0),
            one: Some(1),
        },
        kept: Some(Kept {
            label: 999,
            standing: 0,
            directive: Directive::Block,
        }),
    }
}

// A record that matches everything at no cost, under a label that the tables use.
pub fn record<A>(address: A) -> Filter<A, A, u32>
where
    A: Copy,
{
    Filter {
        label: 1,
        destination: Prefix { address, length: 0 },
        source: Prefix { address, length: 0 },
        cost: 0,
        directive: Directive::Block,
    }
}

// Filters from socket to socket at ranks, and memory that holds something else.
use book::fault::AddFault;
use filters::directive::Directive;
use filters::filter::{Filter, Prefix};
use kinds::address::Address;
use kinds::rank::Rank;
use kinds::socket::Socket;

pub(crate) type Place = Filter<u16, u16, u32>;

pub(crate) type Plain = Filter<Socket, Socket, Rank>;

// What stands in memory before a book writes there: unlawful throughout, but with a label that filters have too.
pub(crate) const JUNK: Place = Filter {
    label: 1,
    destination: Prefix {
        address: 0xdead,
        length: 200,
    },
    source: Prefix {
        address: 0xbeef,
        length: 255,
    },
    cost: 0,
    directive: Directive::Line(0),
};

// A filter that matches everything.
pub(crate) fn any(label: u16) -> Plain {
    let all = Prefix {
        address: Socket::of(0),
        length: 0,
    };
    Filter {
        label,
        destination: all,
        source: all,
        cost: Rank::new(label as u32),
        directive: Directive::Block,
    }
}

// The number of a refusal of adding, 0 where there is none.
pub(crate) fn number(answer: Result<(), AddFault>) -> u8 {
    answer.err().map_or(0, |fault| fault.number())
}

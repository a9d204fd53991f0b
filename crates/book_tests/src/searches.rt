// Linear search and standings on small books; the labels expected were worked out by hand.
use crate::places::JUNK;
use book::book::Book;
use filters::directive::Directive;
use filters::filter::{Filter, Prefix, Record};
use filters::search::{linear_search, standing};
use kinds::address::Address;
use kinds::cost::Cost;
use kinds::ipv4::Ipv4;
use kinds::rank::Rank;
use kinds::socket::Socket;
use kinds::tariff::Tariff;
use std::test::Fail;

// The label found, 0 for none.
fn found<D: Address, S: Address, C: Cost>(
    places: &[Record<D, S, C>],
    destination: D::Pattern,
    source: S::Pattern,
) -> u16 {
    linear_search::<D, S, C>(places, &D::of(destination), &S::of(source)).map_or(
        0,
        |filter| filter.label,
    )
}

// Five filters from socket to socket: label, destination (1, 10, empty, 1, 1), source (0, 11, 110, empty, 11), cost,
// and how many of the five are better
type Row = (u16, u16, u8, u16, u8, u32, usize);

const FIVE: [Row; 5] = [
    (1, 0x8000, 1, 0x0000, 1, 5, 1),
    (2, 0x8000, 2, 0xc000, 2, 7, 2),
    (3, 0x0000, 0, 0xc000, 3, 3, 0),
    (4, 0x8000, 1, 0x0000, 0, 9, 4),
    (5, 0x8000, 1, 0xc000, 2, 7, 3),
];

// destination, source, and the label; labels with filter 3 withdrawn, and with cost 30 for it
const SEARCHES: [(u16, u16, u16, u16, u16); 6] = [
    (0x8000, 0xd000, 3, 2, 2),
    (0x8000, 0xe000, 2, 2, 2),
    (0xc000, 0x4000, 1, 1, 1),
    (0x0000, 0xc000, 3, 0, 3),
    (0x0000, 0x0000, 0, 0, 0),
    (0x8000, 0x0000, 1, 1, 1),
];

// The filter of a row; filter 3 has a cost of its own.
fn five(row: Row, cost_of_three: u32) -> Filter<Socket, Socket, Rank> {
    let (label, destination, length, source, source_length, cost, _) = row;
    Filter {
        label,
        destination: Prefix {
            address: Socket::of(destination),
            length,
        },
        source: Prefix {
            address: Socket::of(source),
            length: source_length,
        },
        cost: Rank::new(if label == 3 { cost_of_three } else { cost }),
        directive: Directive::Line(1),
    }
}

#[test]
fn five_filters(rt: HostRuntime) -> Result<(), Fail> {
    // the filters in their order, and the last first
    let mut turned = FIVE;
    turned.reverse();
    for rows in [FIVE, turned] {
        let mut memory = [JUNK; 7];
        let mut dearer = [JUNK; 5];
        let mut book = Book::<Socket, Socket, Rank>::new(&mut memory);
        let mut other = Book::<Socket, Socket, Rank>::new(&mut dearer);
        for row in rows {
            book.add(&five(row, 3))?;
            other.add(&five(row, 30))?;
        }
        for (destination, source, label, _, with_thirty) in SEARCHES {
            assert_eq!(rt;
                found::<Socket, Socket, Rank>(book.records(), destination, source),
                label
            );
            assert_eq!(rt;
                found::<Socket, Socket, Rank>(other.records(), destination, source),
                with_thirty
            );
        }
        for (label, _, _, _, _, cost, better) in FIVE {
            assert_eq!(rt;
                standing::<Socket, Socket, Rank>(book.records(), &Rank::new(cost), label),
                better
            );
        }
        book.withdraw(3)?;
        for (destination, source, _, without_three, _) in SEARCHES {
            assert_eq!(rt;
                found::<Socket, Socket, Rank>(book.records(), destination, source),
                without_three
            );
        }
    }
    Ok(())
}

// Filters from IPv4 to IPv4 at tariffs: label, destination, source, class, price
const TARIFFS: [(u16, u32, u8, u32, u8, u32); 6] = [
    (10, 0xc633_6400, 24, 0, 0, 0x1000_01f4),
    (13, 0xc633_6405, 32, 0xc000_0201, 32, 0x2000_0000),
    (12, 0xc633_0000, 16, 0, 0, 0x0fff_ffff),
    // no lawful cost: the place holds no filter
    (9, 0, 0, 0, 0, 0xa000_0000),
    (15, 0, 0, 0xc000_0200, 24, 0x1000_0190),
    (14, 0, 0, 0xc000_0200, 24, 0x1000_0190),
];

// 198.51.100.5, 198.51.101.5, 203.0.113.1 and 192.0.2.1, 192.0.2.9, 192.0.3.1
const CHOICES: [(u32, u32, u16); 5] = [
    (0xc633_6405, 0xc000_0201, 12),
    (0xc633_6505, 0xc000_0301, 12),
    (0xcb00_7101, 0xc000_0209, 14),
    (0xcb00_7101, 0xc000_0301, 0),
    (0xc733_6405, 0xc000_0201, 14),
];

// cost, label, and how many of the filters are better
const STANDINGS: [(u8, u32, u16, usize); 6] = [
    (0, 0, 1, 0),
    (0, 268_435_455, 12, 0),
    (1, 400, 14, 1),
    (1, 400, 15, 2),
    (1, 500, 10, 3),
    (9, 1, 1, 5),
];

#[test]
fn tariffs(rt: HostRuntime) -> Result<(), Fail> {
    let mut memory: [Filter<u32, u32, u32>; 6] = [Filter {
        label: 0,
        destination: Prefix {
            address: 0,
            length: 0,
        },
        source: Prefix {
            address: 0,
            length: 0,
        },
        cost: 0,
        directive: Directive::Block,
    }; 6];
    for (place, (label, destination, length, source, source_length, cost)) in memory
        .iter_mut()
        .zip(TARIFFS)
    {
        place.label = label;
        place.destination = Prefix {
            address: destination,
            length,
        };
        place.source = Prefix {
            address: source,
            length: source_length,
        };
        place.cost = cost;
    }
    for (destination, source, label) in CHOICES {
        assert_eq!(rt;
            found::<Ipv4, Ipv4, Tariff>(&memory, destination, source),
            label
        );
    }
    for (class, price, label, better) in STANDINGS {
        let cost = Tariff::new(class, price).ok_or(price)?;
        assert_eq!(rt;
            standing::<Ipv4, Ipv4, Tariff>(&memory, &cost, label),
            better
        );
    }
    Ok(())
}

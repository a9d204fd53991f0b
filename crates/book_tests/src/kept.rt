// What is read back is what was put in, for every kind.
use book::book::Book;
use filters::directive::Directive;
use filters::filter::{Filter, Prefix, Record};
use kinds::address::Address;
use kinds::cost::Cost;
use kinds::ipv4::Ipv4;
use kinds::ipv6::Ipv6;
use kinds::rank::Rank;
use kinds::socket::Socket;
use kinds::tariff::Tariff;
use std::fmt::Debug;
use std::process::Abort;
use std::test::Fail;

// Puts filters into a book and reads them back, and then without the first.
fn check_kept<
    D: Address + PartialEq + Debug,
    S: Address + PartialEq + Debug,
    C: Cost + PartialEq + Debug,
>(rt: &impl Abort, memory: &mut [Record<D, S, C>], put: &[Filter<D, S, C>]) -> Result<(), Fail> {
    let mut book = Book::<D, S, C>::new(memory);
    for filter in put {
        book.add(filter)?;
    }
    assert_eq!(rt; book.len(), put.len());
    for (i, filter) in put.iter().enumerate() {
        assert_eq!(rt; book.get(i), Some(*filter));
    }
    assert!(rt; book.get(put.len()).is_none() && book.get(usize::MAX).is_none());
    Ok(())
}

// directives in turn
const DIRECTIVES: [Directive; 4] = [
    Directive::Block,
    Directive::Line(1),
    Directive::Line(63),
    Directive::Reserve {
        line: 63,
        rate: 16_777_215,
    },
];

fn prefix<A: Address>(pattern: A::Pattern, length: u8) -> Prefix<A> {
    Prefix {
        address: A::of(pattern),
        length,
    }
}

#[test]
fn ipv4_to_ipv4_by_rank(rt: HostRuntime) -> Result<(), Fail> {
    let junk: Filter<u32, u32, u32> = Filter {
        label: 1,
        destination: Prefix {
            address: 0xffff_ffff,
            length: 255,
        },
        source: Prefix {
            address: 0xffff_ffff,
            length: 255,
        },
        cost: 0xffff_ffff,
        directive: Directive::Line(255),
    };
    let put: [Filter<Ipv4, Ipv4, Rank>; 3] = [
        Filter {
            label: 1,
            destination: prefix(0xc633_6400, 24),
            source: prefix(0, 0),
            cost: Rank::new(9),
            directive: DIRECTIVES[3],
        },
        Filter {
            label: 65535,
            destination: prefix(0xc000_0201, 32),
            source: prefix(0xffff_ffff, 32),
            cost: Rank::new(0xffff_ffff),
            directive: DIRECTIVES[0],
        },
        Filter {
            label: 256,
            destination: prefix(0x8000_0000, 1),
            source: prefix(0x7fff_fffe, 31),
            cost: Rank::new(0),
            directive: DIRECTIVES[1],
        },
    ];
    check_kept(&rt, &mut [junk; 3], &put)?;
    check_kept(&rt, &mut [junk; 5], &put)
}

#[test]
fn ipv4_to_socket_by_tariff(rt: HostRuntime) -> Result<(), Fail> {
    // its cost is no lawful pattern
    let junk: Filter<u32, u16, u32> = Filter {
        label: 7,
        destination: Prefix {
            address: 0xffff_ffff,
            length: 255,
        },
        source: Prefix {
            address: 0xffff,
            length: 255,
        },
        cost: 0xffff_ffff,
        directive: Directive::Reserve {
            line: 255,
            rate: 0xffff_ffff,
        },
    };
    let cheap = Tariff::new(0, 0).ok_or(0u8)?;
    let dear = Tariff::new(9, 268_435_455).ok_or(9u8)?;
    let put: [Filter<Ipv4, Socket, Tariff>; 2] = [
        Filter {
            label: 7,
            destination: prefix(0xc633_6400, 22),
            source: prefix(0xffff, 16),
            cost: dear,
            directive: DIRECTIVES[2],
        },
        Filter {
            label: 8,
            destination: prefix(0, 0),
            source: prefix(0x9840, 10),
            cost: cheap,
            directive: DIRECTIVES[3],
        },
    ];
    check_kept(&rt, &mut [junk; 2], &put)?;
    check_kept(&rt, &mut [junk; 4], &put)
}

#[test]
fn ipv6_to_ipv6_by_rank(rt: HostRuntime) -> Result<(), Fail> {
    let junk: Filter<u128, u128, u32> = Filter {
        label: 3,
        destination: Prefix {
            address: u128::MAX,
            length: 255,
        },
        source: Prefix {
            address: u128::MAX,
            length: 129,
        },
        cost: 5,
        directive: Directive::Line(64),
    };
    let put: [Filter<Ipv6, Ipv6, Rank>; 2] = [
        Filter {
            label: 3,
            destination: prefix(0x2001_0db8_0000_0000_0000_0000_0000_0000, 32),
            source: prefix(0x2001_0db8_85a3_08d3_1319_8a2e_0370_7348, 128),
            cost: Rank::new(1),
            directive: DIRECTIVES[0],
        },
        Filter {
            label: 2,
            destination: prefix(u128::MAX, 128),
            source: prefix(0x8000_0000_0000_0000_0000_0000_0000_0000, 1),
            cost: Rank::new(0x8000_0000),
            directive: DIRECTIVES[3],
        },
    ];
    check_kept(&rt, &mut [junk; 2], &put)?;
    check_kept(&rt, &mut [junk; 3], &put)
}

// The prefix test: the first bits of one address, and another address.
use kinds::address::Address;
use kinds::ipv4::Ipv4;
use kinds::ipv6::Ipv6;
use kinds::prefix::is_prefix;
use kinds::socket::Socket;

const SOCKETS: [(u16, u32, u16, bool); 10] = [
    (0xffff, 0, 0x0000, true),
    (0x8000, 1, 0x0000, false),
    (0x8000, 1, 0xffff, true),
    (0xaa80, 9, 0xaaff, true),
    (0xaa80, 10, 0xaaff, false),
    (0x1234, 15, 0x1235, true),
    (0x1234, 16, 0x1235, false),
    (0x1234, 16, 0x1234, true),
    (0x1234, 17, 0x1234, true),
    (0x1234, 0xffff_ffff, 0x1235, false),
];

// 198.51.100.0 and addresses in and beside it
const IPV4: [(u32, u32, u32, bool); 9] = [
    (0xc633_6400, 24, 0xc633_6405, true),
    (0xc633_6400, 24, 0xc633_64ff, true),
    (0xc633_6400, 24, 0xc633_6505, false),
    (0xc633_6400, 23, 0xc633_6505, true),
    (0xc633_6400, 24, 0x4633_6405, false),
    (0xc633_6400, 0, 0x0000_0000, true),
    (0xc633_6405, 32, 0xc633_6405, true),
    (0xc633_6405, 32, 0xc633_6404, false),
    (0xc633_6405, 255, 0xc633_6405, true),
];

// 2001:db8:: and addresses in and beside it
const IPV6: [(u128, u32, u128, bool); 8] = [
    (
        0x2001_0db8_0000_0000_0000_0000_0000_0000,
        32,
        0x2001_0db8_ffff_ffff_ffff_ffff_ffff_ffff,
        true,
    ),
    (
        0x2001_0db8_0000_0000_0000_0000_0000_0000,
        32,
        0x2001_0db9_0000_0000_0000_0000_0000_0000,
        false,
    ),
    (
        0x2001_0db8_0000_0000_0000_0000_0000_0000,
        31,
        0x2001_0db9_0000_0000_0000_0000_0000_0000,
        true,
    ),
    (
        0x2001_0db8_0000_0000_0000_0000_0000_0000,
        64,
        0x2001_0db8_0000_0001_0000_0000_0000_0000,
        false,
    ),
    (
        0x2001_0db8_0000_0000_0000_0000_0000_0000,
        63,
        0x2001_0db8_0000_0001_0000_0000_0000_0000,
        true,
    ),
    (
        0x2001_0db8_0000_0000_0000_0000_0000_0001,
        128,
        0x2001_0db8_0000_0000_0000_0000_0000_0001,
        true,
    ),
    (
        0x2001_0db8_0000_0000_0000_0000_0000_0001,
        128,
        0x2001_0db8_0000_0000_0000_0000_0000_0000,
        false,
    ),
    (
        0x2001_0db8_0000_0000_0000_0000_0000_0001,
        127,
        0x2001_0db8_0000_0000_0000_0000_0000_0000,
        true,
    ),
];

#[test]
fn of_each_kind(rt: HostRuntime) {
    for (prefix, length, address, agrees) in SOCKETS {
        assert_eq!(rt;
            is_prefix(
                &<Socket as Address>::of(prefix),
                length,
                &<Socket as Address>::of(address),
            ),
            agrees,
            "{}",
            length
        );
    }
    for (prefix, length, address, agrees) in IPV4 {
        assert_eq!(rt;
            is_prefix(&Ipv4::new(prefix), length, &Ipv4::new(address)),
            agrees,
            "{}",
            length
        );
    }
    for (prefix, length, address, agrees) in IPV6 {
        assert_eq!(rt;
            is_prefix(&Ipv6::new(prefix), length, &Ipv6::new(address)),
            agrees,
            "{}",
            length
        );
    }
}

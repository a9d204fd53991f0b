// The bits of addresses, the most significant first.
use kinds::address::Address;
use kinds::ipv4::Ipv4;
use kinds::ipv6::Ipv6;
use std::process::Abort;

// 192.0.2.129
const IPV4: &str = "11000000000000000000001010000001";
// 2001:db8:85a3:8d3:1319:8a2e:370:7348
const IPV6: &str =
    "00100000000000010000110110111000100001011010001100001000110100110001001100011001100010100010111000000011011100000111001101001000";
// hall 9, row 33, socket 6
const SOCKET: &str = "1001100001000110";

// Whether the address has just these bits, as many as its kind is wide, and 0 behind them.
fn spells<A: Address>(rt: &impl Abort, address: &A, text: &str) {
    assert_eq!(rt; A::WIDTH as usize, text.len());
    for i in 0..A::WIDTH {
        assert_eq!(rt;
            address.bit(i),
            text.as_bytes().get(i as usize) == Some(&b'1'),
            "{}",
            i
        );
    }
    for i in [A::WIDTH, 129, 255, 256, 0x8000_0000, u32::MAX] {
        assert_eq!(rt; address.bit(i), false, "{}", i);
    }
}

#[test]
fn strings(rt: HostRuntime) {
    spells(&rt, &Ipv4::new(0xc000_0281), IPV4);
    spells(
        &rt,
        &Ipv6::new(0x2001_0db8_85a3_08d3_1319_8a2e_0370_7348),
        IPV6,
    );
    spells(&rt, &<kinds::socket::Socket as Address>::of(0x9846), SOCKET);
}

// the number with 1 in one place alone, and that place
const ONES: [(u128, u32); 6] = [
    (0x8000_0000_0000_0000_0000_0000_0000_0000, 0),
    (0x4000_0000_0000_0000_0000_0000_0000_0000, 1),
    (0x0000_0000_0000_0001_0000_0000_0000_0000, 63),
    (0x0000_0000_0000_0000_8000_0000_0000_0000, 64),
    (0x0000_0000_0000_0000_0000_0000_0000_0002, 126),
    (0x0000_0000_0000_0000_0000_0000_0000_0001, 127),
];

#[test]
fn single_bits(rt: HostRuntime) {
    for (number, place) in ONES {
        let address = Ipv6::new(number);
        for i in 0..130 {
            assert_eq!(rt; address.bit(i), i == place, "{}", i);
        }
    }
}

// Long inputs, and inputs that come slowly.
#[cfg(test)]
mod tests {
    use crate::drip::streamed;
    use hex::decode;
    use packets::{PacketFault, Ports, read};
    use report::{report, tell};
    use std::test::Fail;

    // A packet of 1,500 bytes is read, and the same input with a length of 1,501 is too long.
    #[test]
    fn longest(rt: HostRuntime) -> Result<(), Fail> {
        let heap = rt.alloc();
        let mut input = decode(heap, "000005dc450005dc00000000400188e7c0000201c6336405")?;
        input.resize(1504, 0)?;
        assert!(rt;
            report(heap, input.as_slice())?.as_str()
                == "packet 192.0.2.1 198.51.100.5 protocol 1 payload 1480\n"
        );
        input[3] = 0xdd;
        assert!(rt; report(heap, input.as_slice())?.as_str() == "long\n");
        Ok(())
    }

    // The longest line that a packet can give: each number at its longest, with ports.
    #[test]
    fn longest_line(rt: HostRuntime) -> Result<(), Fail> {
        let heap = rt.alloc();
        let mut input = decode(
            heap,
            "ffff05dc450005dc0000000040117512ffffffffffffffffffffffff",
        )?;
        input.resize(1504, 0)?;
        let line =
            "packet 255.255.255.255 255.255.255.255 protocol 17 payload 1480 ports 65535 65535\n";
        assert!(rt; report(heap, input.as_slice())?.as_str() == line);
        assert!(rt; streamed(heap, input.as_slice())?.as_slice() == line.as_bytes());
        Ok(())
    }

    // The end of an input has no line.
    #[test]
    fn end_untold(rt: HostRuntime) -> Result<(), Fail> {
        assert!(rt; tell(None).is_none());
        Ok(())
    }

    // Of 65,537 empty packets the first 65,536 are told, at ten bytes a line.
    #[test]
    fn most(rt: HostRuntime) -> Result<(), Fail> {
        let heap = rt.alloc();
        let input = vec![in heap; 0u8; 4 * 65537]?;
        assert_eq!(rt; report(heap, input.as_slice())?.len(), 655360);
        Ok(())
    }

    // An input that comes byte by byte gives the same lines.
    #[test]
    fn slow(rt: HostRuntime) -> Result<(), Fail> {
        let heap = rt.alloc();
        for text in [
            "",
            "00",
            "00000014450000140000000040118e9fc0000201c6336405000000000000001445",
            "00000014450000140000000040118e9fc0000201c633640500000014450000140000000040018eafc0000201c6336405",
            "0000000000000000000005dd00",
        ] {
            let input = decode(heap, text)?;
            let lines = report(heap, input.as_slice())?;
            assert!(rt;
                streamed(heap, input.as_slice())?.as_slice() == lines.as_bytes(),
                "{}",
                text
            );
        }
        Ok(())
    }

    // The payload and the ports of a packet, and the numbers of its refusals.
    #[test]
    fn parts(rt: HostRuntime) -> Result<(), Fail> {
        let heap = rt.alloc();
        let input = decode(
            heap,
            "4500001c0000000040118e97c0000201c63364053132333435363738626579",
        )?;
        let Ok(packet) = read(input.as_slice()) else {
            return Err(Fail::new("refused"));
        };
        assert_eq!(rt; packet.source().to_bits(), 0xc0000201);
        assert_eq!(rt; packet.destination().to_bits(), 0xc6336405);
        assert_eq!(rt; packet.protocol, 17);
        assert!(rt; packet.payload == b"12345678".as_slice());
        let ports = Ports {
            source: 0x3132,
            destination: 0x3334,
        };
        assert_eq!(rt; packet.ports, Some(ports));
        assert_eq!(rt; PacketFault::Short.number(), 10);
        assert_eq!(rt; PacketFault::Version.number(), 11);
        assert_eq!(rt; PacketFault::HeaderLength.number(), 12);
        assert_eq!(rt; PacketFault::TotalLength.number(), 13);
        assert_eq!(rt; PacketFault::Checksum.number(), 14);
        Ok(())
    }
}

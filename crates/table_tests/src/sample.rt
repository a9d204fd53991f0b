// One table in every place, and the longest table.
#[cfg(test)]
mod tests {
    use crate::run::bytes;
    use filters::convert::to_record;
    use filters::directive::Directive;
    use filters::filter::{Filter, Prefix};
    use kinds::ipv4::Ipv4;
    use kinds::rank::Rank;
    use std::test::Fail;
    use tables::check::check_table;
    use tables::load::load_table;
    use tables::write::write_table;

    const JUNK: Filter<u32, u32, u32> = Filter {
        label: 77,
        destination: Prefix {
            address: 0xdead_beef,
            length: 78,
        },
        source: Prefix {
            address: 0xcafe_babe,
            length: 79,
        },
        cost: 80,
        directive: Directive::Line(81),
    };

    const SAMPLE: &str =
        "01111002 0001 18 c6336400 00 00000000 00000009 43000000 0002 00 00000000 18 c0000200 00000004 00000000";

    #[test]
    fn loaded(rt: HostRuntime) -> Result<(), Fail> {
        let table = bytes(rt.alloc(), SAMPLE)?;
        let mut places = [JUNK; 3];
        assert_eq!(rt;
            load_table::<Ipv4, Ipv4, Rank>(table.as_slice(), &mut places),
            Ok(2)
        );
        let first = Filter {
            label: 1,
            destination: Prefix {
                address: 0xc633_6400,
                length: 24,
            },
            source: Prefix {
                address: 0,
                length: 0,
            },
            cost: 9,
            directive: Directive::Line(3),
        };
        let second = Filter {
            label: 2,
            destination: Prefix {
                address: 0,
                length: 0,
            },
            source: Prefix {
                address: 0xc000_0200,
                length: 24,
            },
            cost: 4,
            directive: Directive::Block,
        };
        assert_eq!(rt; places, [first, second, JUNK]);
        Ok(())
    }

    // The second record has the first one's label: nothing is written, not even the first record.
    #[test]
    fn refused(rt: HostRuntime) -> Result<(), Fail> {
        let table = bytes(
            rt.alloc(),
            "01111002 0001 18 c6336400 00 00000000 00000009 43000000 0001 00 00000000 18 c0000200 00000004 00000000",
        )?;
        let mut places = [JUNK; 2];
        let Err(fault) = load_table::<Ipv4, Ipv4, Rank>(table.as_slice(), &mut places) else {
            return Err(Fail::new("accepted"));
        };
        assert_eq!(rt; fault.record(), 2);
        assert_eq!(rt; fault.number(), 5);
        assert_eq!(rt; places, [JUNK; 2]);
        Ok(())
    }

    #[test]
    fn written(rt: HostRuntime) -> Result<(), Fail> {
        let any = Prefix {
            address: Ipv4::new(0),
            length: 0,
        };
        let first = Filter {
            label: 1,
            destination: Prefix {
                address: Ipv4::new(0xc633_6400),
                length: 24,
            },
            source: any,
            cost: Rank::new(9),
            directive: Directive::Line(3),
        };
        let second = Filter {
            label: 2,
            destination: any,
            source: Prefix {
                address: Ipv4::new(0xc000_0200),
                length: 24,
            },
            cost: Rank::new(4),
            directive: Directive::Block,
        };
        let places = [to_record(&first), to_record(&second)];
        let mut buffer = [0xaau8; 46];
        assert_eq!(rt;
            write_table::<Ipv4, Ipv4, Rank>(&places, &mut buffer),
            Ok(44)
        );
        let table = bytes(rt.alloc(), SAMPLE)?;
        assert!(rt; buffer[0..44] == table.as_slice()[..]);
        assert!(rt; buffer[44] == 0xaa && buffer[45] == 0xaa);
        Ok(())
    }

    // A buffer that is a byte too short stays as it was.
    #[test]
    fn short(rt: HostRuntime) -> Result<(), Fail> {
        let places = [JUNK; 2];
        let mut buffer = [0xaau8; 43];
        let Err(fault) = write_table::<Ipv4, Ipv4, Rank>(&places, &mut buffer) else {
            return Err(Fail::new("written"));
        };
        assert_eq!(rt; fault.number(), 19);
        assert!(rt; buffer == [0xaau8; 43]);
        Ok(())
    }

    // The longest table: 4,095 filters with the labels from 1 up, then with the last label again that of the first.
    #[test]
    fn longest(rt: HostRuntime) -> Result<(), Fail> {
        let mut table = bytes(rt.alloc(), "01111fff")?;
        for label in 1..4096u16 {
            table.extend_from_slice(label.to_be_bytes().as_slice())?;
            table.extend_from_slice(bytes(
                rt.alloc(),
                "00 00000000 00 00000000 00000007 41000000",
            )?.as_slice())?;
        }
        assert_eq!(rt;
            check_table::<Ipv4, Ipv4, Rank>(table.as_slice(), 4095),
            Ok(4095)
        );
        let at = 4 + 4094 * 20;
        assert!(rt; table.len() == at + 20);
        table[at] = 0;
        table[at + 1] = 1;
        let Err(fault) = check_table::<Ipv4, Ipv4, Rank>(table.as_slice(), 4095) else {
            return Err(Fail::new("accepted"));
        };
        assert_eq!(rt; fault.record(), 4095);
        assert_eq!(rt; fault.number(), 5);
        Ok(())
    }
}

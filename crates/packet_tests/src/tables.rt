// Every case of every table.
#[cfg(test)]
mod tests {
    use crate::cases;
    use crate::written::failing;
    use std::test::Fail;

    #[test]
    fn tables(rt: HostRuntime) -> Result<(), Fail> {
        for table in [
            cases::REFUSALS,
            cases::ORDER,
            cases::LENGTHS,
            cases::CARRIES,
            cases::PORTS,
            cases::ITEMS,
        ] {
            assert_eq!(rt; failing(rt.alloc(), table)?.as_str(), "");
        }
        Ok(())
    }

    // A case that does not hold is found.
    #[test]
    fn wrong_case(rt: HostRuntime) -> Result<(), Fail> {
        let table = "right: 00 -> short/\nwrong: 00 -> long/\nno case\n";
        assert_eq!(rt;
            failing(rt.alloc(), table)?.as_str(),
            "wrong: 00 -> long/\nno case\n"
        );
        Ok(())
    }
}

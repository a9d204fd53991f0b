// Every case of every group.
#[cfg(test)]
mod tests {
    use crate::cases;
    use crate::run::failing;
    use std::test::Fail;

    #[test]
    fn tables(rt: HostRuntime) -> Result<(), Fail> {
        for group in [
            cases::ACCEPTED,
            cases::REFUSED,
            cases::ORDER,
            cases::CHANGED,
        ] {
            assert_eq!(rt; failing(rt.alloc(), group)?.as_str(), "");
        }
        Ok(())
    }

    // A case that does not hold is found.
    #[test]
    fn wrong_case(rt: HostRuntime) -> Result<(), Fail> {
        let group =
            "right: 111 0 01111000 -> accepted 0\nwrong: 111 0 01111000 -> accepted 1\nno case\n";
        assert_eq!(rt;
            failing(rt.alloc(), group)?.as_str(),
            "wrong: 111 0 01111000 -> accepted 1\nno case\n"
        );
        Ok(())
    }
}

// Examples of the Reed-Solomon chain.
#![tactic(auto)]

#[cfg(test)]
mod tests {
    use chain::Chain;
    use gf16::Gf16;
    use gfp::GfP;
    use reed_solomon::ReedSolomon;
    use refusal::Refusal;
    use std::test::Fail;

    #[test]
    fn over_seven(rt: HostRuntime) -> Result<(), Fail> {
        let Ok(field) = GfP::new(7) else {
            assert!(rt; false);
            return Ok(());
        };
        let code = ReedSolomon::new(field, 4, &[2, 1]);
        let mut word = [0; 4];
        assert!(rt; code.encode(1, &[1, 2], &mut word).is_ok());
        assert!(rt; word == [1, 3, 5, 0]);
        let mut scratch = [0; 4096];
        let mut block = [1, 3, 5, 1];
        assert!(rt; code.correct(2, &mut block, &mut scratch).is_err());
        assert!(rt; code.correct(1, &mut block, &mut scratch).is_ok());
        assert!(rt; block == word);
        let mut near = [4, 4, 1, 4];
        assert!(rt; code.correct(2, &mut near, &mut scratch).is_ok());
        assert!(rt; near == [4, 4, 4, 4]);
        let mut message = [0; 2];
        assert!(rt; code.strip(1, &word, &mut message).is_ok());
        assert!(rt; message == [1, 2]);
        Ok(())
    }

    #[test]
    fn flaws_over_sixteen(rt: HostRuntime) {
        assert!(rt; ReedSolomon::new(Gf16, 16, &[3, 3]).flaw().is_none());
        assert!(rt; ReedSolomon::new(Gf16, 17, &[3, 3]).flaw() == Some(Refusal::ChainLength));
        assert!(rt; ReedSolomon::new(Gf16, 15, &[]).flaw() == Some(Refusal::LevelCount));
        assert!(rt; ReedSolomon::new(Gf16, 15, &[2, 3]).flaw() == Some(Refusal::LevelShape));
    }

    fn length_of(chain: ReedSolomon<Gf16>) -> usize {
        chain.length()
    }

    // A chain is `Copy`: handed on by value, it is there for the next call.
    fn longer_of_copies() -> usize {
        let chain = ReedSolomon::new(Gf16, 15, &[11, 9, 2]);
        length_of(chain).max(length_of(chain))
    }

    #[test]
    fn copied(rt: HostRuntime) {
        assert!(rt; longer_of_copies() == 15);
    }
}

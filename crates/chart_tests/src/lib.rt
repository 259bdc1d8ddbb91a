// Charts against worked figures, and a run that was published.
#![tactic(auto)]

#[cfg(test)]
mod tests {
    use charts::Chart;
    use combined::Pair;
    use history::look_back_scores;
    use page::Page;
    use runs::Runs;
    use std::process::Abort;
    use std::test::Fail;
    use walk::Walk;

    // Page with h = 4,096 has 4,096 states.
    #[test]
    fn sizes(rt: HostRuntime) -> Result<(), Fail> {
        let pair = Pair {
            first: Page::new(4096, 0, 0)?,
            second: Runs::new(2, 5, 0)?,
        };
        let Some(size) = pair.size() else {
            return Err(Fail::new("no size beside runs of 5"));
        };
        assert_eq!(rt; size.states, 65536);
        assert_eq!(rt; size.leaves, 2);
        let pair = Pair {
            first: Page::new(4096, 0, 0)?,
            second: Page::new(17, 0, 0)?,
        };
        assert!(rt; pair.size().is_none());
        Ok(())
    }

    // Two of three above 4, and a total that reaches a limit of 6 from either side.
    #[test]
    fn words(rt: HostRuntime) -> Result<(), Fail> {
        let runs = Runs::new(2, 3, 4)?;
        assert_eq!(rt; look_back_scores(&runs, &[5, 1, 5])?, 1);
        assert_eq!(rt; look_back_scores(&runs, &[5, 1, 1, 5])?, 0);
        assert_eq!(rt; runs.start()?, 0);
        let walk = Walk::new(6)?;
        assert_eq!(rt; look_back_scores(&walk, &[3, -1, 4])?, 1);
        assert_eq!(rt; look_back_scores(&walk, &[3, -1, 3])?, 0);
        assert_eq!(rt; look_back_scores(&walk, &[-3, -3])?, 1);
        assert_eq!(rt; walk.start()?, 5);
        assert_eq!(rt; walk.step(5, 3)?, (8, 0));
        assert_eq!(rt; walk.step(8, 3)?, (5, 1));
        Ok(())
    }

    // Two times the mean differences in thickness of forty lots of silicon wafers, from Yashchin (1987). His two-sided
    // scheme (h = 9, k = 3, headstart 2 above; 5, 2, 1 below) signals above at the fortieth lot and not before.
    const LOTS: [i16; 40] = [
        -8, -2, 6, -4, -5, -1, 3, -6, 8, 7, -5, -6, -6, -1, -5, 2, -2, -6, 2, 9, -7, -6, -2, 8, -1,
        -5, 8, -4, -6, -3, 8, 5, -1, 14, 10, 8, 9, 5, 5, 10,
    ];

    // The sums of his upper and lower schemes after each lot, two times. Columns as he prints them, and not pairs: the last lot
    // has no sum.
    const ABOVE: [u32; 39] = [
        0, 0, 0, 0, 0, 0, 0, 0, 2, 3, 0, 0, 0, 0, 0, 0, 0, 0, 0, 3, 0, 0, 0, 2, 0, 0, 2, 0, 0, 0,
        2, 1, 0, 8, 12, 14, 17, 16, 15,
    ];

    const BELOW: [u32; 39] = [
        6, 4, 0, 0, 1, 0, 0, 2, 0, 0, 1, 3, 5, 2, 3, 0, 0, 2, 0, 0, 3, 5, 3, 0, 0, 1, 0, 0, 2, 1,
        0, 0, 0, 0, 0, 0, 0, 0, 0,
    ];

    // The chart has these sums, one after each lot, and looks back quietly at each.
    fn check_sums(
        rt: &impl Abort,
        page: &Page,
        lots: &[i16; 40],
        sums: &[u32; 39],
    ) -> Result<(), Fail> {
        let mut state = page.start()?;
        // by place, at which the lots so far are cut off too: zipped, it is no plainer, and wants an invariant
        for (i, sum) in sums.iter().enumerate() {
            assert_eq!(rt; page.step(state, lots[i])?, (*sum, 0));
            assert_eq!(rt; look_back_scores(page, &lots[..=i])?, 0);
            state = *sum;
        }
        Ok(())
    }

    #[test]
    fn forty_lots(rt: HostRuntime) -> Result<(), Fail> {
        let above = Page::new(18, 6, 4)?;
        check_sums(&rt, &above, &LOTS, &ABOVE)?;
        assert_eq!(rt; above.step(15, LOTS[39])?, (4, 1));
        assert_eq!(rt; look_back_scores(&above, &LOTS)?, 1);
        let below = Page::new(10, 4, 2)?;
        let opposite = LOTS.map(|lot| lot.wrapping_neg());
        check_sums(&rt, &below, &opposite, &BELOW)?;
        assert_eq!(rt; look_back_scores(&below, &opposite)?, 0);
        Ok(())
    }
}

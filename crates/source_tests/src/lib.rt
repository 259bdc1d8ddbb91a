// Worked figures of the measured sources, around each limit and at every kind of float.
#![tactic(auto)]

#[cfg(test)]
mod tests {
    use gauges::Gauges;
    use measure::Measure;
    use scoring::{Source, SourceFault};
    use std::process::Abort;
    use std::test::Fail;

    // Readings, each with what becomes of it.
    fn check_scores<S: Source<Reading = f64>>(
        rt: &impl Abort,
        source: &S,
        cases: &[(f64, Result<i16, SourceFault>)],
    ) {
        for (reading, answer) in cases {
            assert_eq!(rt; source.score(*reading), *answer);
        }
    }

    #[test]
    fn gauges(rt: HostRuntime) -> Result<(), Fail> {
        let source = Gauges::new(-3.0, -1.0, 1.0, 3.0, 1, 2)?;
        check_scores(
            &rt,
            &source,
            &[
                (-3.0000000000000004, Ok(-2)),
                (-3.0, Ok(-2)),
                (-2.9999999999999996, Ok(-1)),
                (-1.0, Ok(-1)),
                (-0.9999999999999999, Ok(0)),
                (-0.0, Ok(0)),
                (5e-324, Ok(0)),
                (0.9999999999999999, Ok(0)),
                (1.0, Ok(1)),
                (2.9999999999999996, Ok(1)),
                (3.0, Ok(2)),
                (-1000000.0, Ok(-2)),
                (1000000.0, Ok(2)),
                (
                    -1000000.0000000001,
                    Err(SourceFault::Below(-1000000.0000000001)),
                ),
                (
                    1000000.0000000001,
                    Err(SourceFault::Above(1000000.0000000001)),
                ),
                (
                    f64::NEG_INFINITY,
                    Err(SourceFault::Below(f64::NEG_INFINITY)),
                ),
                (f64::INFINITY, Err(SourceFault::Above(f64::INFINITY))),
                (f64::NAN, Err(SourceFault::NotANumber)),
            ],
        );
        Ok(())
    }

    #[test]
    fn measure(rt: HostRuntime) -> Result<(), Fail> {
        let source = Measure::new(1.5, 0.25)?;
        check_scores(
            &rt,
            &source,
            &[
                // a half goes away from zero
                (2.125, Ok(3)),
                (0.875, Ok(-3)),
                (2.1249999999999996, Ok(2)),
                (0.8750000000000001, Ok(-2)),
                (1.5, Ok(0)),
                (-0.0, Ok(-6)),
                (5e-324, Ok(-6)),
                (251.6, Ok(1000)),
                (251.625, Err(SourceFault::OffScale(1000.5))),
                (-248.625, Err(SourceFault::OffScale(-1000.5))),
                (-1000001.0, Err(SourceFault::Below(-1000001.0))),
                (f64::INFINITY, Err(SourceFault::Above(f64::INFINITY))),
                (f64::NAN, Err(SourceFault::NotANumber)),
            ],
        );
        Ok(())
    }
}

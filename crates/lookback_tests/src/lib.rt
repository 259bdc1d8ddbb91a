// What `lookback` prints, and what it complains of, case by case.
#![tactic(auto)]

#[cfg(test)]
mod tests {
    use arguments::request_of;
    use console::report_of;
    use std::alloc::{AllocError, Global};
    use std::process::Abort;
    use std::test::Fail;

    // What `lookback` prints.
    fn printed(heap: Global, arguments: &str, input: &[u8]) -> anyhow::Result<String> {
        let words: Vec<String> = arguments
            .split_whitespace()
            .map(|word| String::from_str(heap, word))
            .try_collect(heap)?;
        let request = request_of(&words)?;
        report_of(heap, &request, input)
    }

    // The same, or its complaint after a `!`.
    fn answer(heap: Global, arguments: &str, input: &[u8]) -> Result<String, AllocError> {
        printed(heap, arguments, input).or_else(|error| format!(in heap; "!{error}"))
    }

    struct Case {
        arguments: &'static str,
        input: &'static [u8],
        answer: &'static str,
    }

    fn check_all(rt: &impl Abort, heap: Global, cases: &[Case]) -> Result<(), Fail> {
        for case in cases {
            let given = answer(heap, case.arguments, case.input)?;
            assert_eq!(rt; given.as_str(), case.answer, "{}", case.arguments);
        }
        Ok(())
    }

    #[test]
    fn words(rt: HostRuntime) -> Result<(), Fail> {
        check_all(
            &rt,
            rt.alloc(),
            &[
                // the worked example with headstart 0: the whole list no longer reaches 10
                Case {
                    arguments: "count 100 page 10 1 0 shewhart 6",
                    input: b"102\n100\n103\n107\n",
                    answer: "morning 1: count 102, score 2\nmorning 2: count 100, score 0\nmorning 3: count 103, score 3\nmorning 4: count 107, score 7\nword 2\npage does not alarm on the last morning\nshewhart alarms on the last morning\n",
                },
                // the headstart and the whole list reach 10 together
                Case {
                    arguments: "count 100 page 10 1 4 shewhart 6",
                    input: b"106\n102\n",
                    answer: "morning 1: count 106, score 6\nmorning 2: count 102, score 2\nword 1\npage alarms on the last morning\nshewhart does not alarm on the last morning\n",
                },
                // the headstart belongs to the whole list: with the last score alone it would reach 10
                Case {
                    arguments: "count 100 page 10 1 4 shewhart 6",
                    input: b"90\n107\n",
                    answer: "morning 1: count 90, score -10\nmorning 2: count 107, score 7\nword 2\npage does not alarm on the last morning\nshewhart alarms on the last morning\n",
                },
                // blanks and carriage returns are passed over, and a negative score is printed with its sign
                Case {
                    arguments: "count 100 page 10 1 4 shewhart 6",
                    input: b" 99 \r\n100",
                    answer: "morning 1: count 99, score -1\nmorning 2: count 100, score 0\nword 0\npage does not alarm on the last morning\nshewhart does not alarm on the last morning\n",
                },
                // no counts: the look-back word of the empty list
                Case {
                    arguments: "count 100 page 10 1 4 shewhart -1",
                    input: b"",
                    answer: "word 0\npage does not alarm on the last morning\nshewhart does not alarm on the last morning\n",
                },
            ],
        )
    }

    const GOOD: &str = "count 100 page 10 1 4 shewhart 6";

    #[test]
    fn complaints(rt: HostRuntime) -> Result<(), Fail> {
        check_all(
            &rt,
            rt.alloc(),
            &[
                Case {
                    arguments: "",
                    input: b"",
                    answer: "!argument 1 is to be count, and is ''",
                },
                Case {
                    arguments: "count",
                    input: b"",
                    answer: "!argument 2 is to be a centre from 0 to 65535, and is ''",
                },
                Case {
                    arguments: "count 65536",
                    input: b"",
                    answer: "!argument 2 is to be a centre from 0 to 65535, and is '65536'",
                },
                Case {
                    arguments: "count 100 walk 4",
                    input: b"",
                    answer: "!argument 3 is to be page, and is 'walk'",
                },
                Case {
                    arguments: "count 100 page x",
                    input: b"",
                    answer: "!argument 4 is to be h of page, from 1 to 4096, and is 'x'",
                },
                Case {
                    arguments: "count 100 page 10 1 10 shewhart 6",
                    input: b"",
                    answer: "!refusal 4 at argument 3: page takes h from 1 to 4096, k from -1000 to 1000, s0 from 0 to h - 1",
                },
                Case {
                    arguments: "count 100 page 10 1 4 shewhart 1001",
                    input: b"",
                    answer: "!refusal 4 at argument 7: shewhart takes c from -1000 to 1000",
                },
                Case {
                    arguments: "count 100 page 10 1 4 shewhart 6 7",
                    input: b"",
                    answer: "!argument 9 is to be the end, and is '7'",
                },
                Case {
                    arguments: GOOD,
                    input: b"102\n\n103\n",
                    answer: "!line 2 is to be a whole number from 0 to 65535, and is ''",
                },
                Case {
                    arguments: GOOD,
                    input: b"102\n12.5\n",
                    answer: "!line 2 is to be a whole number from 0 to 65535, and is '12.5'",
                },
                Case {
                    arguments: GOOD,
                    input: b"102\n\xff\n",
                    answer: "!line 2 is to be a whole number from 0 to 65535, and is 'not text'",
                },
                Case {
                    arguments: GOOD,
                    input: b"102\n100\n1101\n",
                    answer: "!refusal 22 at line 3: a count has to lie within 1000 of the centre",
                },
            ],
        )
    }

    #[test]
    fn longest(rt: HostRuntime) -> Result<(), Fail> {
        let heap = rt.alloc();
        let mut column = "100\n".repeat(heap, 4096)?;
        let text = answer(heap, GOOD, column.as_bytes())?;
        assert!(rt;
            text.as_str().ends_with(
                "word 0\npage does not alarm on the last morning\nshewhart does not alarm on the last morning\n",
            )
        );
        column.push_str("100\n")?;
        let text = answer(heap, GOOD, column.as_bytes())?;
        assert_eq!(rt;
            text.as_str(),
            "!refusal 15 at line 4097: a look-back takes 4096 counts at most"
        );
        Ok(())
    }
}

//! Lines that are refused for a limit, or after their facts.
use super::{Case, WHOLE, check_cases};
use std::test::Fail;
use suite_reading::{Cause, SuiteKind, SuiteWhich};

const LITERAL: Cause = Cause::Limit(SuiteWhich::Literal);

const NAME: Cause = Cause::Limit(SuiteWhich::NameBytes);

const INPUTS: Cause = Cause::Limit(SuiteWhich::Inputs);

const OUTPUTS: Cause = Cause::Limit(SuiteWhich::Outputs);

const VECTOR: Cause = Cause::Fault(SuiteKind::Vector);

const CONFLICT: Cause = Cause::Fault(SuiteKind::Conflict);

const COUNT: Cause = Cause::Fault(SuiteKind::Count);

const END: Cause = Cause::Fault(SuiteKind::End);

/// Numbers, names and counts beyond their limits.
const LIMITS: [Case; 14] = [
    Case {
        first: 2,
        last: 2,
        text: "input v -1000001 10\n",
        at: 2,
        cause: LITERAL,
    },
    Case {
        first: 2,
        last: 2,
        text: "input v 0 1000001\n",
        at: 2,
        cause: LITERAL,
    },
    Case {
        first: 2,
        last: 2,
        text: "input a23456789012345678901234567890123 1000001 0\n",
        at: 2,
        cause: NAME,
    },
    Case {
        first: 3,
        last: 3,
        text: "output a23456789012345678901234567890123\n",
        at: 3,
        cause: NAME,
    },
    Case {
        first: 4,
        last: 4,
        text: "bound 1000000000001\n",
        at: 4,
        cause: LITERAL,
    },
    Case {
        first: 5,
        last: 5,
        text: "states -1000000000001\n",
        at: 5,
        cause: LITERAL,
    },
    Case {
        first: 7,
        last: 7,
        text: "class 1000001\n",
        at: 7,
        cause: LITERAL,
    },
    Case {
        first: 9,
        last: 9,
        text: "cover 1000000000001\n",
        at: 9,
        cause: LITERAL,
    },
    Case {
        first: 12,
        last: 12,
        text: "test 4 1000000000001\n",
        at: 12,
        cause: LITERAL,
    },
    Case {
        first: 13,
        last: 13,
        text: "1000000000001 / 0\n",
        at: 13,
        cause: LITERAL,
    },
    Case {
        first: 13,
        last: 13,
        text: "0 / 99999999999999999999999999\n",
        at: 13,
        cause: LITERAL,
    },
    Case {
        first: 30,
        last: 30,
        text: "end 1000000000001\n",
        at: 30,
        cause: LITERAL,
    },
    Case {
        first: 2,
        last: 2,
        text: "input a 0 1\ninput b 0 1\ninput c 0 1\ninput d 0 1\ninput e 0 1\ninput f 0 1\ninput f 1 0\n",
        at: 8,
        cause: INPUTS,
    },
    Case {
        first: 3,
        last: 3,
        text: "output a\noutput b\noutput c\noutput d\noutput e\noutput f\noutput g\noutput h\noutput h\n",
        at: 11,
        cause: OUTPUTS,
    },
];

/// Steps, counts and ends.
const LATER: [Case; 15] = [
    Case {
        first: 13,
        last: 13,
        text: "1 / 0\n",
        at: 13,
        cause: VECTOR,
    },
    Case {
        first: 13,
        last: 13,
        text: "1000001 / 0\n",
        at: 13,
        cause: VECTOR,
    },
    Case {
        first: 23,
        last: 23,
        text: "7 / 0\n",
        at: 23,
        cause: VECTOR,
    },
    Case {
        first: 23,
        last: 23,
        text: "8 / 0\n",
        at: 23,
        cause: CONFLICT,
    },
    Case {
        first: 30,
        last: 30,
        text: "test 3\n8 / 0\nend 6\n",
        at: 31,
        cause: CONFLICT,
    },
    Case {
        first: 10,
        last: 10,
        text: "",
        at: 10,
        cause: COUNT,
    },
    Case {
        first: 9,
        last: 10,
        text: "",
        at: 9,
        cause: COUNT,
    },
    Case {
        first: 10,
        last: 10,
        text: "cover 3\ncover 2\n",
        at: 11,
        cause: COUNT,
    },
    Case {
        first: 30,
        last: 30,
        text: "end 4\n",
        at: 30,
        cause: COUNT,
    },
    Case {
        first: 30,
        last: 30,
        text: "end 6\n",
        at: 30,
        cause: COUNT,
    },
    Case {
        first: 30,
        last: 30,
        text: "end -5\n",
        at: 30,
        cause: COUNT,
    },
    Case {
        first: 30,
        last: 30,
        text: "end 5",
        at: 30,
        cause: END,
    },
    Case {
        first: 30,
        last: 30,
        text: "end 4",
        at: 30,
        cause: END,
    },
    Case {
        first: 30,
        last: 30,
        text: "",
        at: 30,
        cause: END,
    },
    Case {
        first: 30,
        last: 30,
        text: "end 5\nx",
        at: 31,
        cause: END,
    },
];

#[test]
fn limits(rt: HostRuntime) -> Result<(), Fail> {
    check_cases(&rt, rt.alloc(), WHOLE.as_bytes(), &LIMITS)?;
    Ok(())
}

#[test]
fn after_the_facts(rt: HostRuntime) -> Result<(), Fail> {
    check_cases(&rt, rt.alloc(), WHOLE.as_bytes(), &LATER)?;
    Ok(())
}

//! Lines that are refused for their form, and facts.
use super::{Case, WHOLE, check_cases};
use std::test::Fail;
use suite_reading::{Cause, SuiteKind};

const FORM: Cause = Cause::Fault(SuiteKind::Form);

const FACT: Cause = Cause::Fault(SuiteKind::Fact);

/// Lines that are none of the forms that may stand there.
const FORMS: [Case; 28] = [
    Case {
        first: 1,
        last: 1,
        text: "suite 2\n",
        at: 1,
        cause: FORM,
    },
    Case {
        first: 1,
        last: 1,
        text: "suite 01\n",
        at: 1,
        cause: FORM,
    },
    Case {
        first: 1,
        last: 1,
        text: "\n",
        at: 1,
        cause: FORM,
    },
    Case {
        first: 1,
        last: 1,
        text: "",
        at: 1,
        cause: FORM,
    },
    Case {
        first: 2,
        last: 2,
        text: "input v 0\n",
        at: 2,
        cause: FORM,
    },
    Case {
        first: 2,
        last: 2,
        text: "input v 0 10 1\n",
        at: 2,
        cause: FORM,
    },
    Case {
        first: 2,
        last: 2,
        text: "input 7 0 10\n",
        at: 2,
        cause: FORM,
    },
    Case {
        first: 2,
        last: 2,
        text: "input v-w 1000001 10\n",
        at: 2,
        cause: FORM,
    },
    Case {
        first: 2,
        last: 2,
        text: "",
        at: 2,
        cause: FORM,
    },
    Case {
        first: 3,
        last: 3,
        text: "",
        at: 3,
        cause: FORM,
    },
    Case {
        first: 6,
        last: 8,
        text: "",
        at: 6,
        cause: FORM,
    },
    Case {
        first: 7,
        last: 7,
        text: "class 007\n",
        at: 7,
        cause: FORM,
    },
    Case {
        first: 7,
        last: 7,
        text: "class 6 1000001\n",
        at: 7,
        cause: FORM,
    },
    Case {
        first: 7,
        last: 7,
        text: "class  6\n",
        at: 7,
        cause: FORM,
    },
    Case {
        first: 7,
        last: 7,
        text: "class 6 \n",
        at: 7,
        cause: FORM,
    },
    Case {
        first: 7,
        last: 7,
        text: "class -0\n",
        at: 7,
        cause: FORM,
    },
    Case {
        first: 7,
        last: 7,
        text: "class 6\r\n",
        at: 7,
        cause: FORM,
    },
    Case {
        first: 11,
        last: 11,
        text: "",
        at: 11,
        cause: FORM,
    },
    Case {
        first: 12,
        last: 29,
        text: "",
        at: 12,
        cause: FORM,
    },
    Case {
        first: 12,
        last: 12,
        text: "test\n",
        at: 12,
        cause: FORM,
    },
    Case {
        first: 13,
        last: 13,
        text: "0 /\n",
        at: 13,
        cause: FORM,
    },
    Case {
        first: 13,
        last: 13,
        text: "/ 0\n",
        at: 13,
        cause: FORM,
    },
    Case {
        first: 13,
        last: 13,
        text: "0 / 0 1000000000001\n",
        at: 13,
        cause: FORM,
    },
    Case {
        first: 13,
        last: 13,
        text: "0 0\n",
        at: 13,
        cause: FORM,
    },
    Case {
        first: 13,
        last: 13,
        text: "test 1\n",
        at: 13,
        cause: FORM,
    },
    Case {
        first: 15,
        last: 15,
        text: "6 / 0\n",
        at: 15,
        cause: FORM,
    },
    Case {
        first: 30,
        last: 30,
        text: "end 5\nend 5\n",
        at: 31,
        cause: FORM,
    },
    Case {
        first: 30,
        last: 30,
        text: "end 5\n\n",
        at: 31,
        cause: FORM,
    },
];

/// Names, ranges, bounds, vectors and letters.
const FACTS: [Case; 18] = [
    Case {
        first: 4,
        last: 4,
        text: "bound 1000000000000\n",
        at: 4,
        cause: FACT,
    },
    Case {
        first: 7,
        last: 7,
        text: "class 1000000\n",
        at: 7,
        cause: FACT,
    },
    Case {
        first: 2,
        last: 2,
        text: "input state 0 10\n",
        at: 2,
        cause: FACT,
    },
    Case {
        first: 2,
        last: 2,
        text: "input v 10 0\n",
        at: 2,
        cause: FACT,
    },
    Case {
        first: 3,
        last: 3,
        text: "output v\n",
        at: 3,
        cause: FACT,
    },
    Case {
        first: 3,
        last: 3,
        text: "output alarm\noutput alarm\n",
        at: 4,
        cause: FACT,
    },
    Case {
        first: 4,
        last: 4,
        text: "bound 0\n",
        at: 4,
        cause: FACT,
    },
    Case {
        first: 4,
        last: 4,
        text: "bound 1025\n",
        at: 4,
        cause: FACT,
    },
    Case {
        first: 4,
        last: 4,
        text: "bound -1\n",
        at: 4,
        cause: FACT,
    },
    Case {
        first: 5,
        last: 5,
        text: "states 0\n",
        at: 5,
        cause: FACT,
    },
    Case {
        first: 5,
        last: 5,
        text: "states 3\n",
        at: 5,
        cause: FACT,
    },
    Case {
        first: 7,
        last: 7,
        text: "class 11\n",
        at: 7,
        cause: FACT,
    },
    Case {
        first: 7,
        last: 7,
        text: "class -1\n",
        at: 7,
        cause: FACT,
    },
    Case {
        first: 9,
        last: 9,
        text: "cover 0\n",
        at: 9,
        cause: FACT,
    },
    Case {
        first: 11,
        last: 11,
        text: "mark 4\n",
        at: 11,
        cause: FACT,
    },
    Case {
        first: 12,
        last: 12,
        text: "test 1 4\n",
        at: 12,
        cause: FACT,
    },
    Case {
        first: 12,
        last: 12,
        text: "test -1 2\n",
        at: 12,
        cause: FACT,
    },
    Case {
        first: 10,
        last: 10,
        text: "cover 3\ncover 4\n",
        at: 11,
        cause: FACT,
    },
];

#[test]
fn lines_of_no_form(rt: HostRuntime) -> Result<(), Fail> {
    check_cases(&rt, rt.alloc(), WHOLE.as_bytes(), &FORMS)?;
    Ok(())
}

#[test]
fn wrong_facts(rt: HostRuntime) -> Result<(), Fail> {
    check_cases(&rt, rt.alloc(), WHOLE.as_bytes(), &FACTS)?;
    Ok(())
}

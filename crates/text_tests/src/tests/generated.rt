//! Charts that are made from a number.
use super::describe::{chart_reading, describe_chart};
use chart_gen::generate;
use impl_table::fits;
use std::test::Fail;

/// A number and the lines of its chart.
#[derive(Clone, Copy)]
struct Row {
    number: u32,
    text: &'static str,
}

/// The smallest chart, one with a gap of 2, and one of a great number with a gap of 5.
const ROWS: [Row; 3] = [
    Row {
        number: 0,
        text: "chart 1
input v 0 20
output o 0
state s0 start
state s1
on s0 when v >= 10 do o = 1 go s1
on s1 when v < 9 do o = 0 go s0
",
    },
    Row {
        number: 39,
        text: "chart 1
input v 0 30
output o 0
state s0 start
state s1
state s2
on s0 when v >= 10 do o = 1 go s1
on s1 when v < 8 do o = 0 go s0
on s1 when v >= 20 do o = 2 go s2
on s2 when v < 18 do o = 1 go s1
",
    },
    Row {
        number: 4_294_967_254,
        text: "chart 1
input v 0 40
output o 0
state s0 start
state s1
state s2
state s3
on s0 when v >= 10 do o = 1 go s1
on s1 when v < 5 do o = 0 go s0
on s1 when v >= 20 do o = 2 go s2
on s2 when v < 15 do o = 1 go s1
on s2 when v >= 30 do o = 3 go s3
on s3 when v < 25 do o = 2 go s2
",
    },
];

#[test]
fn charts_of_numbers(rt: HostRuntime) -> Result<(), Fail> {
    for row in ROWS {
        let chart = generate(rt.alloc(), row.number)?;
        let got = describe_chart(rt.alloc(), &chart)?;
        let wanted = chart_reading(rt.alloc(), row.text)?;
        assert_eq!(rt; got.as_str(), wanted.as_str(), "{}", row.number);
    }
    Ok(())
}

// The chart of a number is that of the number modulo 190. Each of these is read, and that of the number modulo 38 fits it.
#[test]
fn no_number_is_without_a_chart(rt: HostRuntime) -> Result<(), Fail> {
    for number in 0..190u32 {
        let chart = generate(rt.alloc(), number)?;
        let other = generate(rt.alloc(), number % 38)?;
        let states = (2 + number % 38) as usize;
        assert_eq!(rt; chart.states.as_slice().len(), states, "{number}");
        assert_eq!(rt; other.states.as_slice().len(), states, "{number}");
        assert!(rt;
            fits(&chart.signature, &other.signature).is_ok(),
            "{number}"
        );
    }
    Ok(())
}

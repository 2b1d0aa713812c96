//! Limits at their edges.
use super::*;

/// A chart of four lines.
const SHORT: &str = "chart 1\ninput v 0 1\noutput o 0\nstate S start\n";

/// The lines after the inputs of a chart.
const REST: &str = "output o 0\nstate S start\n";

/// The lines before the memories of a chart.
const DECLARED: &str = "chart 1\ninput v 0 1\noutput o 0\n";

/// The lines before the assumptions of a chart.
const ASSUMED: &str = "chart 2\ninput v 0 100\n";

/// A chart up to the name of its state.
const NAMED: &str = "chart 1\ninput v 0 1\noutput o 0\nstate ";

/// A chart up to the guard of its transition.
const GUARDED: &str = "chart 1\ninput v 0 1\noutput o 0\nstate S start\non S when ";

/// A chart up to the end of its first comparison.
const COMPARED: &str = "chart 1\ninput v 0 1\noutput o 0\nstate S start\non S when v = 0";

/// A text with a piece that is repeated, how often at most, and what is said where it stands once more.
const EDGES: [((&str, &str, bool, &str, &str), usize, &str); 10] = [
    (
        ("chart 1\n", "input i", true, " 0 1\n", REST),
        6,
        "8: limit inputs",
    ),
    (
        (ASSUMED, "assume v >= ", true, "\n", REST),
        16,
        "19: limit assumptions",
    ),
    (
        (
            "chart 1\ninput v 0 1\n",
            "output o",
            true,
            " 0\n",
            "state S start\n",
        ),
        8,
        "11: limit outputs",
    ),
    (
        (DECLARED, "memory m", true, " 0 0 0\n", "state S start\n"),
        4,
        "8: limit memories",
    ),
    ((SHORT, "state T", true, "\n", ""), 63, "68: limit states"),
    (
        (SHORT, "on S when v = ", true, "\n", ""),
        256,
        "261: limit transitions",
    ),
    ((NAMED, "n", false, "", " start\n"), 32, "4: limit name"),
    ((COMPARED, " + ", true, "", "\n"), 509, "5: limit tokens"),
    (
        (GUARDED, "not ", false, "", "v = 0\n"),
        64,
        "5: limit nesting",
    ),
    (
        (COMPARED, " or v = ", true, "", "\n"),
        63,
        "5: limit comparisons",
    ),
];

#[test]
fn limits_at_their_edges(rt: HostRuntime) -> Result<(), Fail> {
    for ((front, piece, numbered, end, back), most, said) in EDGES {
        assert!(rt; most < 1_000usize);
        let text = Pieces {
            front,
            piece,
            numbered,
            end,
            back,
        };
        let line = format!(in rt.alloc(); "classtest: X:{said}\n")?;
        for (count, status, err) in [(most, 0, ""), (most + 1, 4, line.as_str())] {
            let chart = repeated(rt.alloc(), text, count)?;
            let texts = [("X", chart.as_str()), ("W", "")];
            check_no_output(&rt, rt.alloc(), "play X W", &texts, status, err)?;
        }
    }
    Ok(())
}

//! Which cause comes first.
use super::*;

/// How many bytes a text may have.
const MOST: usize = 262_144;

/// A text of so many bytes more than its front has: line feeds.
fn long_text(alloc: Global, front: &str, more: usize) -> Result<String, AllocError> {
    longer(alloc, front, "\n", more)
}

/// A text with a piece that is put behind its front so often.
fn longer(alloc: Global, front: &str, piece: &str, more: usize) -> Result<String, AllocError> {
    let text = Pieces {
        front,
        piece,
        numbered: false,
        end: "",
        back: "",
    };
    repeated(alloc, text, more)
}

#[test]
fn comment_to_the_most_bytes(rt: HostRuntime) -> Result<(), Fail> {
    let full = longer(rt.alloc(), CHART, "#", MOST - CHART.len())?;
    assert_eq!(rt; full.len(), MOST);
    let texts = [("A", full.as_str()), ("W", "3\n8\n6\n5\n")];
    let (status, out, err) = (0, "0\n1\n1\n0\n", "");
    let expected = Expected { status, out, err };
    check(&rt, rt.alloc(), "play A W", &texts, smooth(4_096), expected)?;
    let long = longer(rt.alloc(), CHART, "#", MOST + 1 - CHART.len())?;
    let texts = [("A", long.as_str()), ("W", "3\n8\n6\n5\n")];
    let err = "classtest: A: limit bytes\n";
    check_no_output(&rt, rt.alloc(), "play A W", &texts, 4, err)?;
    Ok(())
}

/// The name of a chart, and the status and the line where nothing earlier is met.
const CHARTS: [(&str, u8, &str); 4] = [
    ("none", 5, ": read fault"),
    ("long", 4, ": limit bytes"),
    ("fault", 3, ":2: range"),
    ("limit", 4, ":2: limit literal"),
];

/// The name of a word, and the status and the line where nothing earlier is met.
const WORDS: [(&str, u8, &str); 4] = [
    ("none-word", 5, ": read fault"),
    ("long-word", 4, ": limit bytes"),
    ("fault-word", 3, ":2: form"),
    ("limit-word", 4, ":2: limit literal"),
];

#[test]
fn causes_in_their_order(rt: HostRuntime) -> Result<(), Fail> {
    let long_chart = long_text(rt.alloc(), CHART, MOST)?;
    let long_word = long_text(rt.alloc(), "3\n", MOST)?;
    let texts = [
        ("A", CHART),
        ("long", long_chart.as_str()),
        ("fault", "chart 1\ninput v 5 4\n"),
        ("limit", "chart 1\ninput v 0 1000001\n"),
        ("long-word", long_word.as_str()),
        ("fault-word", "3\nx\n"),
        ("limit-word", "3\n1000001\n"),
    ];
    for (word, status, said) in WORDS {
        let line = format!(in rt.alloc(); "play A {word}")?;
        let err = format!(in rt.alloc(); "classtest: {word}{said}\n")?;
        check_no_output(&rt, rt.alloc(), line.as_str(), &texts, status, err.as_str())?;
        for (chart, status, said) in CHARTS {
            let line = format!(in rt.alloc(); "play {chart} {word}")?;
            let err = format!(in rt.alloc(); "classtest: {chart}{said}\n")?;
            check_no_output(&rt, rt.alloc(), line.as_str(), &texts, status, err.as_str())?;
            let line = format!(in rt.alloc(); "play {chart} {word} {word}")?;
            let err = "classtest: no such command\n";
            check_no_output(&rt, rt.alloc(), line.as_str(), &texts, 2, err)?;
        }
    }
    Ok(())
}

/// Calls the program twice, where `said` is what `err` took after the program's name, or empty where it took nothing:
/// once as the world is, and once where the first put of `err` fails, which changes no status.
fn check_said(
    rt: &impl Abort,
    alloc: Global,
    line: &str,
    texts: &[(&str, &str)],
    world: World,
    status: u8,
    out: &str,
    said: &str,
) -> Result<(), AllocError> {
    let whole = format!(in alloc; "classtest: {said}\n")?;
    let err = if said.is_empty() { "" } else { whole.as_str() };
    check(rt, alloc, line, texts, world, Expected { status, out, err })?;
    let world = World {
        chunk: world.chunk,
        shelf: world.shelf,
        out: world.out,
        err: 1,
    };
    let err = "";
    check(rt, alloc, line, texts, world, Expected { status, out, err })
}

/// The words; which call of the shelf and which put of `out` fails; the status; what is put to `out` and to `err`.
const CAUSES: [(&str, u64, u64, u8, &str, &str); 20] = [
    ("play full full-word", 0, 0, 0, "0\n", ""),
    ("play long W", 0, 0, 4, "", "long: limit bytes"),
    ("play A long-word", 0, 1, 4, "", "long-word: limit bytes"),
    ("play long-fault W", 0, 1, 4, "", "long-fault: limit bytes"),
    ("play long-limit W", 0, 1, 4, "", "long-limit: limit bytes"),
    ("play A long-fault", 0, 1, 4, "", "long-fault: limit bytes"),
    ("play A long-limit", 0, 1, 4, "", "long-limit: limit bytes"),
    ("play long W", 2, 1, 5, "", "long: read fault"),
    ("play fault W", 2, 1, 5, "", "fault: read fault"),
    ("play limit W", 2, 1, 5, "", "limit: read fault"),
    ("play A long-word", 5, 1, 5, "", "long-word: read fault"),
    ("play A fault", 5, 1, 5, "", "fault: read fault"),
    ("play A limit", 5, 1, 5, "", "limit: read fault"),
    ("play fault W", 0, 1, 3, "", "fault:1: byte"),
    ("play limit W", 0, 1, 4, "", "limit:1: limit literal"),
    ("play A fault", 0, 1, 3, "", "fault:1: byte"),
    ("play A limit", 0, 1, 4, "", "limit:1: limit literal"),
    ("play A none", 0, 1, 5, "", "none: read fault"),
    ("play A W", 0, 1, 5, "", "write fault"),
    ("play A", 1, 1, 2, "", "no such command"),
];

#[test]
fn causes_in_one_text(rt: HostRuntime) -> Result<(), Fail> {
    let full_chart = long_text(rt.alloc(), CHART, MOST - CHART.len())?;
    let full_word = long_text(rt.alloc(), "3\n", MOST - 2)?;
    let long_chart = long_text(rt.alloc(), CHART, MOST + 1 - CHART.len())?;
    let long_word = long_text(rt.alloc(), "3\n", MOST - 1)?;
    let long_fault = long_text(rt.alloc(), "?\n", MOST)?;
    let long_limit = long_text(rt.alloc(), "1000001\n", MOST)?;
    let texts = [
        ("A", CHART),
        ("W", "3\n"),
        ("full", full_chart.as_str()),
        ("full-word", full_word.as_str()),
        ("long", long_chart.as_str()),
        ("long-word", long_word.as_str()),
        ("long-fault", long_fault.as_str()),
        ("long-limit", long_limit.as_str()),
        ("fault", "?\n1000001\n"),
        ("limit", "1000001\n?\n"),
    ];
    for (line, shelf, out_put, status, out, said) in CAUSES {
        assert!(rt; shelf < 10 && out_put < 10);
        let world = World {
            chunk: 4_096,
            shelf,
            out: out_put,
            err: 0,
        };
        check_said(&rt, rt.alloc(), line, &texts, world, status, out, said)?;
    }
    Ok(())
}

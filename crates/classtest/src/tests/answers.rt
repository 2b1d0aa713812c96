//! What is answered, row by row.
use super::*;

/// The words; the status; what is put to `out` and to `err`.
const ANSWERS: [(&str, u8, &str, &str); 38] = [
    ("play A W", 0, "0\n1\n1\n0\n", ""),
    ("play - W", 0, "0\n1\n1\n0\n", ""),
    ("play A empty", 0, "", ""),
    ("play A2 eight", 0, "1\n1\n", ""),
    ("play COUNT zeros", 0, "1\n2\n3\n3\n", ""),
    ("play NEST ones", 0, "2\n9\n9\n", ""),
    ("play V 01", 0, "0\n1\n", ""),
    ("play PARITY pairs", 0, "0\n0\n", ""),
    ("play MON speeds", 0, "0 0\n1 1\n1 1\n0 0\n", ""),
    ("play HIST way", 0, "1\n2\n9\n2\n9\n1\n9\n1\n", ""),
    ("play A eleven", 3, "", "classtest: eleven:1: box\n"),
    ("play A2 five", 3, "", "classtest: five:2: box\n"),
    ("play A A", 3, "", "classtest: A:1: form\n"),
    ("play P2odd pairs", 3, "", "classtest: pairs:1: box\n"),
    ("play A pairs", 3, "", "classtest: pairs:1: form\n"),
    ("play cut W", 3, "", "classtest: cut:6: form\n"),
    ("play back W", 3, "", "classtest: back:2: range\n"),
    ("play P2 pairs", 3, "", "classtest: P2:4: range\n"),
    ("play H2 way", 3, "", "classtest: H2:13: form\n"),
    ("play H3 way", 3, "", "classtest: H3:13: misuse\n"),
    ("play W A", 3, "", "classtest: W:1: version\n"),
    ("play empty W", 3, "", "classtest: empty:1: version\n"),
    ("play wide W", 4, "", "classtest: wide:2: limit literal\n"),
    ("play B A", 5, "", "classtest: B: read fault\n"),
    ("play A B", 5, "", "classtest: B: read fault\n"),
    ("play A -", 3, "", "classtest: -:1: form\n"),
    ("play A", 2, "", "classtest: no such command\n"),
    ("play", 2, "", "classtest: no such command\n"),
    ("", 2, "", "classtest: no such command\n"),
    ("play A W W", 2, "", "classtest: no such command\n"),
    ("play  W", 2, "", "classtest: no such command\n"),
    ("play A ", 2, "", "classtest: no such command\n"),
    ("play - -", 2, "", "classtest: no such command\n"),
    ("plays A W", 2, "", "classtest: no such command\n"),
    ("Play A W", 2, "", "classtest: no such command\n"),
    ("suite A 0 none", 2, "", "classtest: no such command\n"),
    ("suite A x none", 2, "", "classtest: no such command\n"),
    ("run - 2 - A", 2, "", "classtest: no such command\n"),
];

#[test]
fn answers_and_refusals(rt: HostRuntime) -> Result<(), Fail> {
    for (line, status, out, err) in ANSWERS {
        let expected = Expected { status, out, err };
        check(&rt, rt.alloc(), line, &TEXTS, smooth(4_096), expected)?;
        // The same where each pull gives one byte and each put takes one.
        check(&rt, rt.alloc(), line, &TEXTS, smooth(1), expected)?;
    }
    Ok(())
}

#[test]
fn word_against_an_assumption(rt: HostRuntime) -> Result<(), Fail> {
    let texts = [("A2", CHART_ASSUMING), ("W", "5\n")];
    let err = "classtest: W:1: box\n";
    check_no_output(&rt, rt.alloc(), "play A2 W", &texts, 3, err)?;
    Ok(())
}

/// Texts that are refused, and some at the edge of a limit that are not, with their place and what is said of it.
const REFUSED: [(&str, &str); 29] = [
    ("chart 1\ninput v 0 10 ?\n", "2: byte"),
    ("chart 4\ninput v 0 1\n", "1: version"),
    ("# no line\n\n", "3: version"),
    ("chart 1\ncut v = 1\n", "2: line"),
    ("chart 1\nassume v = 1\n", "2: line"),
    ("chart 1\noutput o 0\ninput v 0 1\n", "3: order"),
    ("chart 1\ninput v 0\n", "2: form"),
    ("chart 1\ninput v 0 1\noutput v 0\n", "3: double"),
    (
        "chart 1\ninput v 0 1\noutput o 0\nstate S start\non T\n",
        "5: unknown",
    ),
    (
        "chart 1\ninput v 0 1\noutput o 0\nstate S start\non S when o = 1\n",
        "5: misuse",
    ),
    ("chart 1\ninput v 5 4\n", "2: range"),
    (
        "chart 1\ninput v 0 1\noutput o 0\nmemory m 0 3 4\n",
        "4: range",
    ),
    (
        "chart 1\ninput v 0 1\noutput o 0\nstate S start\nstate T start\n",
        "5: start",
    ),
    (
        "chart 1\ninput v 0 1\noutput o 0\nstate S start\nexit S do o = 1\nexit S do o = 2\n",
        "6: twice",
    ),
    ("chart 1\ninput v 0 1\noutput o 0\n", "4: missing"),
    ("chart 1\ninput v 0 1\noutput o 0\nstate S", "5: missing"),
    ("chart 1\ninput v 0 1000001\n", "2: limit literal"),
    (
        "chart 1\ninput v 0 1\noutput o 0\nmemory m 0 1001 0\n",
        "4: limit bound",
    ),
    (
        "chart 1\ninput v 0 1\noutput o 0\nmemory m 1000 1000 1000\nstate S start\n",
        "",
    ),
    (
        "chart 1\ninput v 0 1\noutput o 0\nmemory m 0 255 0\nstate S start\n",
        "",
    ),
    (
        "chart 1\ninput v 0 1\noutput o 0\nmemory m 0 256 0\nstate S start\n",
        "4: limit product",
    ),
    (
        "chart 1\ninput v 0 1\noutput o 0\nmemory m 0 15 0\nmemory n 0 16 0\n",
        "5: limit product",
    ),
    (
        "chart 1\ninput v 0 1\noutput o 0\nstate a start\nstate b in a start\nstate c in b start\nstate d in c start\nstate e in d start\nstate f in e start\nstate g in f start\nstate h in g start\n",
        "",
    ),
    (
        "chart 1\ninput v 0 1\noutput o 0\nstate a start\nstate b in a start\nstate c in b start\nstate d in c start\nstate e in d start\nstate f in e start\nstate g in f start\nstate h in g start\nstate i in h start\n",
        "12: limit depth",
    ),
    // Two faults or limits: the first line, and on a line the first check.
    ("chart 1\ninput v 5 4\ninput w 0 1000001\n", "2: range"),
    (
        "chart 1\ninput v 0 1000001\ninput w 5 4\n",
        "2: limit literal",
    ),
    ("chart 1\ninput v 0 1000001 5\n", "2: limit literal"),
    ("chart 1\ninput v 0 1000001 ?\n", "2: byte"),
    ("chart 1\ninput v 0 1\noutput v 0 v\n", "3: form"),
];

#[test]
fn faults_by_their_words(rt: HostRuntime) -> Result<(), Fail> {
    for (text, said) in REFUSED {
        let status = if said.is_empty() {
            0
        } else if said.contains("limit") {
            4
        } else {
            3
        };
        let line = format!(in rt.alloc(); "classtest: X:{said}\n")?;
        let err = if said.is_empty() { "" } else { line.as_str() };
        let texts = [("X", text), ("W", "")];
        check_no_output(&rt, rt.alloc(), "play X W", &texts, status, err)?;
    }
    Ok(())
}

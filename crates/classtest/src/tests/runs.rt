//! Runs of suites on charts and tables.
use super::*;

/// The chart with its alarm at 7, and with other signatures.
pub(crate) const CHART_7: &str =
    "chart 1\ninput v 0 10\noutput alarm 0\nstate Low start\nstate High\non Low when v >= 7 do alarm = 1 go High\non High when v <= 5 do alarm = 0 go Low\n";

const TWO_INPUTS: &str =
    "chart 1\ninput v 0 10\ninput w 0 10\noutput alarm 0\noutput more 0\nstate Low start\n";

const OTHER_NAME: &str = "chart 1\ninput w 0 10\noutput other 0\nstate Low start\n";

const TWO_OUTPUTS: &str = "chart 1\ninput v 0 10\noutput alarm 0\noutput more 0\nstate Low start\n";

const OTHER_OUTPUT: &str = "chart 1\ninput v 0 10\noutput other 0\nstate Low start\n";

/// A chart with two outputs, and one whose second output has another name.
const PAIR: &str = "chart 1\ninput v 0 10\noutput alarm 0\noutput more 0\nstate Low start\n";

const OTHER_PAIR: &str = "chart 1\ninput v 0 10\noutput alarm 0\noutput less 0\nstate Low start\n";

/// The chart with a memory that counts, and with an assumption that does nothing here.
const COUNTING: &str =
    "chart 2\ninput v 0 10\nassume v >= 9\noutput alarm 0\nmemory n 0 1 0\nstate Low start\non Low when v >= 8 and n = 0 do alarm = 1, n = 1\non Low when v <= 5 and n = 1 do alarm = 0, n = 0\n";

/// A table that differs from the chart first in its third state.
pub(crate) const TABLE: &str =
    "table 1\ninput v 0 10\noutput alarm\nstate L gives 0\nstate H gives 1\nstate T gives 1\nrow L when v >= 8 gives 1 go H\nrow H when v <= 5 gives 0 go L\nrow H when v >= 8 gives 1 go T\nrow T when v <= 5 gives 0 go L\nrow T when v >= 8 gives 0 go T\n";

/// The same table behind a blank line, and with a wider input.
const LATER_TABLE: &str =
    "\r\n # table\r\n\ttable 1\ninput v 0 10\noutput alarm\nstate L gives 0\nstate H gives 1\nrow L when v >= 8 gives 1 go H\nrow H when v <= 5 gives 0 go L\n";

pub(crate) const WIDE_TABLE: &str =
    "table 1\ninput v 0 11\noutput alarm\nstate L gives 0\nstate H gives 1\nstate T gives 1\nrow L when v >= 8 gives 1 go H\nrow H when v <= 5 gives 0 go L\nrow H when v >= 8 gives 1 go T\nrow T when v <= 5 gives 0 go L\nrow T when v >= 8 gives 0 go T\n";

/// The speed monitor that releases its brake at another speed.
const MONITOR_RELEASING: &str =
    "chart 1\ninput v 0 4000\ninput lim 0 4000\noutput warn 0\noutput brake 0\nstate Normal start\nstate Over\nstate Warning\nstate Braking\non Normal when v > lim + 100 do warn = 1, brake = 1 go Braking\non Normal when v > lim + 50 do warn = 1 go Warning\non Normal when v > lim go Over\non Over when v > lim + 100 do warn = 1, brake = 1 go Braking\non Over when v > lim + 50 do warn = 1 go Warning\non Over when v <= lim go Normal\non Warning when v > lim + 100 do brake = 1 go Braking\non Warning when v <= lim do warn = 0 go Normal\non Braking when v <= lim do warn = 0, brake = 0 go Normal\n";

/// Texts by their names.
const IMPLEMENTATIONS: [(&str, &str); 24] = [
    ("A", CHART),
    ("-", CHART),
    ("A7", CHART_7),
    ("C", "cuts 1\ncut v >= 7\n"),
    ("badC", "cuts 1\ncut v >=\n"),
    ("T9", TABLE),
    ("none", TABLE),
    ("T", WIDE_TABLE),
    ("later", LATER_TABLE),
    ("counting", COUNTING),
    ("two", TWO_INPUTS),
    ("name", OTHER_NAME),
    ("outputs", TWO_OUTPUTS),
    ("output", OTHER_OUTPUT),
    ("pair", PAIR),
    ("otherpair", OTHER_PAIR),
    ("MON", MONITOR),
    ("MONB", MONITOR_RELEASING),
    ("chartless", "tables 1\ninput v 0 10\n"),
    ("tabled", "table 1\ninput v 0 10\nmemory n 0 1 0\n"),
    ("wide", "table 1\ninput v 0 1000001\n"),
    ("ONE", "chart 1\ninput v -2 3\noutput o 5\nstate S start\n"),
    (
        "minus",
        "chart 1\ninput v -2 3\noutput o -5\nstate S start\n",
    ),
    (
        "V",
        "chart 1\ninput v 0 10\noutput alarm 0\nstate S start\non S when 1000000*v + 1000000*v >= 1 do alarm = 1\n",
    ),
];

#[test]
fn verdicts(rt: HostRuntime) -> Result<(), Fail> {
    let rows = [
        pass("run A 2 none A7"),
        fail(
            "run A 2 C A7",
            "fail test 3 step 1\nin 7\nexpected 0\ngot 1\n",
        ),
        pass("run A 2 none T9"),
        pass("run A 2 none none"),
        fail(
            "run A 3 none T9",
            "fail test 15 step 3\nin 8\nin 8\nin 8\nexpected 1\ngot 0\n",
        ),
        pass("run A 2 none A"),
        pass("run A 3 none A"),
        pass("run A 0003 C A"),
        pass("run - 2 none A"),
        pass("run A 2 none -"),
        pass("run A 3 none later"),
        pass("run A 3 none counting"),
        fail(
            "run MON 3 none MONB",
            "fail test 10 step 2\nin 101 0\nin 1 1\nexpected 1 1\ngot 0 0\n",
        ),
        pass("run MON 3 none MON"),
    ];
    check_rows(&rt, rt.alloc(), &IMPLEMENTATIONS, &rows)?;
    Ok(())
}

#[test]
fn implementations_that_do_not_fit(rt: HostRuntime) -> Result<(), Fail> {
    let rows = [
        refused("run A 2 none T", 3, "classtest: T: unfit input 1\n"),
        refused("run A 2 none two", 3, "classtest: two: unfit inputs\n"),
        refused("run A 2 none name", 3, "classtest: name: unfit input 1\n"),
        refused(
            "run A 2 none outputs",
            3,
            "classtest: outputs: unfit outputs\n",
        ),
        refused(
            "run A 2 none output",
            3,
            "classtest: output: unfit output 1\n",
        ),
        refused(
            "run pair 1 none otherpair",
            3,
            "classtest: otherpair: unfit output 2\n",
        ),
        refused("run MON 3 none A", 3, "classtest: A: unfit inputs\n"),
    ];
    check_rows(&rt, rt.alloc(), &IMPLEMENTATIONS, &rows)?;
    Ok(())
}

#[test]
fn causes_of_a_run_in_their_order(rt: HostRuntime) -> Result<(), Fail> {
    let rows = [
        refused("run - 2 - A", 2, "classtest: no such command\n"),
        refused("run A 2 none", 2, "classtest: no such command\n"),
        refused(
            "run chartless 2 badC wide",
            3,
            "classtest: chartless:1: version\n",
        ),
        refused("run A 2 badC wide", 3, "classtest: badC:2: form\n"),
        refused(
            "run A 2 missing wide",
            5,
            "classtest: missing: read fault\n",
        ),
        refused("run A 2 C missing", 5, "classtest: missing: read fault\n"),
        refused("run A 2 C wide", 4, "classtest: wide:2: limit literal\n"),
        refused(
            "run A 2 C chartless",
            3,
            "classtest: chartless:1: version\n",
        ),
        refused("run A 2 C tabled", 3, "classtest: tabled:3: line\n"),
        refused("run A 1 C tabled", 3, "classtest: tabled:3: line\n"),
        refused("run V 1 none tabled", 3, "classtest: tabled:3: line\n"),
        refused("run V 1 none T", 3, "classtest: T: unfit input 1\n"),
        refused("run V 1 none T9", 4, "classtest: limit coefficient\n"),
        refused("run A 1 none T", 3, "classtest: T: unfit input 1\n"),
        refused("run A 1 none T9", 4, "classtest: bound 1 below 2\n"),
        refused("run A 13 none T9", 4, "classtest: limit steps\n"),
    ];
    check_rows(&rt, rt.alloc(), &IMPLEMENTATIONS, &rows)?;
    Ok(())
}

/// What is put where the first failing put has this number.
const PUT: [(u64, &str); 4] = [
    (1, ""),
    (2, "fail test 3 step 1\n"),
    (3, "fail test 3 step 1\nin 7\n"),
    (4, "fail test 3 step 1\nin 7\nexpected 0\n"),
];

#[test]
fn failing_calls_of_a_run(rt: HostRuntime) -> Result<(), Fail> {
    for (number, out) in PUT {
        assert!(rt; number < 10);
        let world = World {
            chunk: 4_096,
            shelf: 0,
            out: number,
            err: 0,
        };
        let (status, err) = (5, "classtest: write fault\n");
        let expected = Expected { status, out, err };
        check(
            &rt,
            rt.alloc(),
            "run A 2 C A7",
            &IMPLEMENTATIONS,
            world,
            expected,
        )?;
    }
    // The eighth call of the shelf reads the implementation.
    let world = World {
        chunk: 4_096,
        shelf: 8,
        out: 1,
        err: 0,
    };
    let (status, out, err) = (5, "", "classtest: A7: read fault\n");
    let expected = Expected { status, out, err };
    check(
        &rt,
        rt.alloc(),
        "run A 2 C A7",
        &IMPLEMENTATIONS,
        world,
        expected,
    )?;
    Ok(())
}

/// The verdict on the table by three states, as JSON.
const THIRD_STATE: &str =
    "{\"bound\":3,\"expected\":[1],\"got\":[0],\"states\":2,\"step\":3,\"test\":15,\"tests\":15,\"verdict\":\"fail\",\"word\":[[8],[8],[8]]}\n";

#[test]
fn verdicts_as_json(rt: HostRuntime) -> Result<(), Fail> {
    let rows = [
        Row {
            line: "json A 2 none A",
            status: 0,
            out: "{\"bound\":2,\"states\":2,\"tests\":5,\"verdict\":\"pass\"}\n",
            err: "",
        },
        Row {
            line: "json A 0003 C -",
            status: 0,
            out: "{\"bound\":3,\"states\":2,\"tests\":28,\"verdict\":\"pass\"}\n",
            err: "",
        },
        fail("json A 3 none T9", THIRD_STATE),
        fail(
            "json A 2 C A7",
            "{\"bound\":2,\"expected\":[0],\"got\":[1],\"states\":2,\"step\":1,\"test\":3,\"tests\":7,\"verdict\":\"fail\",\"word\":[[7]]}\n",
        ),
        fail(
            "json ONE 1 none minus",
            "{\"bound\":1,\"expected\":[5],\"got\":[-5],\"states\":1,\"step\":1,\"test\":1,\"tests\":1,\"verdict\":\"fail\",\"word\":[[-2]]}\n",
        ),
        fail(
            "json MON 3 none MONB",
            "{\"bound\":3,\"expected\":[1,1],\"got\":[0,0],\"states\":3,\"step\":2,\"test\":10,\"tests\":13,\"verdict\":\"fail\",\"word\":[[101,0],[1,1]]}\n",
        ),
    ];
    check_rows(&rt, rt.alloc(), &IMPLEMENTATIONS, &rows)?;
    Ok(())
}

#[test]
fn causes_of_json_in_their_order(rt: HostRuntime) -> Result<(), Fail> {
    let rows = [
        refused("json - 2 - A", 2, "classtest: no such command\n"),
        refused("json A 2 none", 2, "classtest: no such command\n"),
        refused("json A 2 badC wide", 3, "classtest: badC:2: form\n"),
        refused(
            "json A 2 missing wide",
            5,
            "classtest: missing: read fault\n",
        ),
        refused("json A 2 C wide", 4, "classtest: wide:2: limit literal\n"),
        refused("json V 1 none T", 3, "classtest: T: unfit input 1\n"),
        refused("json V 1 none T9", 4, "classtest: limit coefficient\n"),
        refused("json A 1 none T9", 4, "classtest: bound 1 below 2\n"),
        refused("json A 13 none T9", 4, "classtest: limit steps\n"),
    ];
    check_rows(&rt, rt.alloc(), &IMPLEMENTATIONS, &rows)?;
    Ok(())
}

/// The line of JSON is one put: where pieces are of 4,096 bytes nothing of it is taken, and where they are of one byte
/// a failing put leaves what was taken before.
#[test]
fn failing_puts_of_json(rt: HostRuntime) -> Result<(), Fail> {
    for (chunk, number, out) in [(4_096usize, 1u64, ""), (1, 1, ""), (1, 9, "{\"bound\"")] {
        assert!(rt; 0 < chunk && number < 10);
        let world = World {
            chunk,
            shelf: 0,
            out: number,
            err: 0,
        };
        let (status, err) = (5, "classtest: write fault\n");
        let expected = Expected { status, out, err };
        let line = "json A 3 none T9";
        check(&rt, rt.alloc(), line, &IMPLEMENTATIONS, world, expected)?;
    }
    Ok(())
}

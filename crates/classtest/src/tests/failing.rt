//! Reads and writes that fail.
ghost use Rattle.std.specs.Prelude.{◌<◌};
ghost use Rattle.test_world.specs.Count.{greatest_count};

use super::*;
use test_world::{Fault, Sink};

/// A call whose shelf fails at this call, over pieces of at most `chunk` bytes: the number of the word that names the
/// text that could not be read, or 0 where nothing failed.
fn failing_call(
    rt: &impl Abort,
    alloc: Global,
    chunk: usize,
    number: u64,
) -> Result<usize, AllocError>
    requires chunk { 0 < chunk }
    requires number { number < greatest_count }
{
    let world = World {
        chunk,
        shelf: number,
        out: 0,
        err: 0,
    };
    let got = called(alloc, "play A W", &TEXTS, world)?;
    if got.status == 0 {
        assert_eq!(rt; got.out.as_slice(), b"0\n1\n1\n0\n".as_slice());
        assert_eq!(rt; got.err.as_slice(), b"".as_slice());
        return Ok(0);
    }
    assert_eq!(rt; got.status, 5, "call {number}");
    assert_eq!(rt; got.out.as_slice(), b"".as_slice(), "call {number}");
    if got.err.as_slice() == b"classtest: A: read fault\n".as_slice() {
        return Ok(1);
    }
    assert_eq!(rt;
        got.err.as_slice(),
        b"classtest: W: read fault\n".as_slice(),
        "call {number}"
    );
    Ok(2)
}

#[test]
fn failing_calls(rt: HostRuntime) -> Result<(), Fail> {
    // The most bytes of a piece, and the least number of calls that read the chart and that read the word.
    for (chunk, chart_calls, word_calls) in [(4_096usize, 2, 2), (1, 1 + CHART.len(), 9)] {
        assert!(rt; 0 < chunk);
        let mut failed = [0usize; 3];
        let mut last = 1;
        for number in 1..1_000u64 {
            let name = failing_call(&rt, rt.alloc(), chunk, number)?;
            assert!(rt; name < 3);
            // The chart's calls come first, then the word's, and then none is left.
            assert!(rt; name == last || (last == 1 && name == 2) || (last == 2 && name == 0));
            last = name;
            failed[name] = failed[name].saturating_add(1);
        }
        assert!(rt; failed[1] >= chart_calls && failed[2] >= word_calls && failed[0] > 0);
    }
    Ok(())
}

/// The first so many bytes.
fn front(text: &str, count: usize) -> &str {
    text.get(..count).unwrap_or(text)
}

#[test]
fn failing_puts(rt: HostRuntime) -> Result<(), Fail> {
    let whole = "0\n1\n1\n0\n";
    let said = "classtest: write fault\n";
    // The most bytes of a piece, the bytes that a put of `out` takes, and how many puts there are.
    for (chunk, taken, puts) in [(4_096usize, 2usize, 4u64), (1, 1, 8)] {
        assert!(rt; 0 < chunk && taken < 10 && puts < 10);
        for number in 1..puts + 2 {
            let world = World {
                chunk,
                shelf: 0,
                out: number,
                err: 0,
            };
            let (status, err) = if number <= puts { (5, said) } else { (0, "") };
            let out = front(whole, taken * (number as usize - 1));
            let expected = Expected { status, out, err };
            check(&rt, rt.alloc(), "play A W", &TEXTS, world, expected)?;
        }
    }
    // A put to `err` that fails leaves a prefix of its line, and the status.
    for (chunk, number, err) in [
        (4_096usize, 1u64, ""),
        (1, 1, ""),
        (1, 5, "clas"),
        (1, 25, "classtest: B: read fault"),
    ] {
        assert!(rt; 0 < chunk && number < 100);
        let world = World {
            chunk,
            shelf: 0,
            out: 0,
            err: number,
        };
        let expected = Expected {
            status: 5,
            out: "",
            err,
        };
        check(&rt, rt.alloc(), "play B W", &TEXTS, world, expected)?;
    }
    Ok(())
}

/// A sink that takes all, but may fail to hand it on. Its count of faults stands at the greatest one.
#[derive(Drop)]
struct Holding {
    sink: MemSink,
    hands_on: bool,
}

impl Sink for Holding {
    ghost use Rattle.std.specs.Prelude.{None};
    ghost use Rattle.test_world.specs.Count.{greatest_count};

    ghost state = { λ _. record { taken = None; faults = greatest_count; puts = 0 } };

    fn put(&mut self, bytes: &[u8]) -> Result<usize, Fault> {
        self.sink.put(bytes)
    }

    fn flush(&mut self) -> Result<(), Fault> {
        if self.hands_on { Ok(()) } else { Err(Fault) }
    }
}

/// A forgotten flush is refused by no contract.
#[test]
fn failing_flush(rt: HostRuntime) -> Result<(), Fail> {
    for (hands_on, status, line) in [(true, 0, ""), (false, 5, "classtest: write fault\n")] {
        let words = words_of(rt.alloc(), "play A W")?;
        let world = smooth(100);
        let mut shelf = MemShelf::new(held(rt.alloc(), &TEXTS)?, only(rt.alloc(), 0)?, 100);
        let (out, err) = (sink(rt.alloc(), world, 0)?, sink(rt.alloc(), world, 0)?);
        let mut out = Holding {
            sink: out,
            hands_on,
        };
        let mut err = Holding {
            sink: err,
            hands_on: true,
        };
        let got = classtest(rt.alloc(), words.as_slice(), &mut shelf, &mut out, &mut err);
        assert_eq!(rt; got, status);
        assert_eq!(rt; out.sink.taken(), b"0\n1\n1\n0\n".as_slice());
        assert_eq!(rt; err.sink.taken(), line.as_bytes());
    }
    Ok(())
}

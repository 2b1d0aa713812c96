use crate::{Piece, pieces_of};
use std::process::Abort;
use std::test::Fail;

/// A line and what its pieces are printed as.
struct Case {
    line: &'static [u8],
    pieces: &'static str,
}

const CASES: [Case; 7] = [
    Case {
        line: b"bound 12",
        pieces: "bound(12)",
    },
    Case {
        line: b"-3 0 / 1000000000000",
        pieces: "(-3)(0)/(1000000000000)",
    },
    Case {
        line: b"9000000000000 -99999999999999999999",
        pieces: "(1000000000001)(-1000000000001)",
    },
    Case {
        line: b"007 -0 +1 1-",
        pieces: "007-0+11-",
    },
    Case {
        line: b"",
        pieces: "",
    },
    Case {
        line: b" 1",
        pieces: "(1)",
    },
    Case {
        line: b"1\t2",
        pieces: "1\t2",
    },
];

#[test]
fn pieces_are_read(rt: HostRuntime) -> Result<(), Fail> {
    let alloc = rt.alloc();
    let mut pieces = Vec::new(alloc);
    for case in CASES.iter() {
        pieces_of(case.line, &mut pieces)?;
        let mut text = Vec::new(alloc);
        for piece in pieces.as_slice() {
            match piece {
                Piece::Number(value) => text.extend_from_slice(format!(in alloc;
                    "({value})"
                )?.as_bytes())?,
                Piece::Word(word) => text.extend_from_slice(word)?,
            }
        }
        assert_eq!(rt; text.as_slice(), case.pieces.as_bytes());
    }
    Ok(())
}

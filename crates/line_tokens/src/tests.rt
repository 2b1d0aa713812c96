//! The tokens of a line, its faults and limits.
use crate::{Token, TokenError, TokenLimit, Word, content, line_tokens};
use std::alloc::Global;
use std::test::Fail;

/// What the tokens of a line are, or its first fault or limit by its name.
fn outcome(alloc: Global, line: &[u8]) -> Result<Vec<Token>, &'static str> {
    match line_tokens(alloc, line) {
        Ok(tokens) => Ok(tokens),
        Err(TokenError::Byte) => Err("byte"),
        Err(TokenError::Limit(TokenLimit::Literal)) => Err("literal"),
        Err(TokenError::Limit(TokenLimit::NameBytes)) => Err("name"),
        Err(TokenError::Limit(TokenLimit::Tokens)) => Err("tokens"),
        Err(TokenError::Limit(TokenLimit::Nesting)) => Err("nesting"),
        Err(TokenError::Memory) => Err("memory"),
    }
}

#[test]
fn longest_tokens(rt: HostRuntime) -> Result<(), Fail> {
    let line = b" on\tv1>= 007,-(_a!=12b # any \x80 bytes\r";
    let want = [
        (Word::Name, 1, 3),
        (Word::Name, 4, 6),
        (Word::Symbol(b'>' + 128), 6, 8),
        (Word::Number(7), 9, 12),
        (Word::Symbol(b','), 12, 13),
        (Word::Symbol(b'-'), 13, 14),
        (Word::Symbol(b'('), 14, 15),
        (Word::Name, 15, 17),
        (Word::Symbol(b'!' + 128), 17, 19),
        (Word::Number(12), 19, 21),
        (Word::Name, 21, 22),
    ];
    let tokens = outcome(rt.alloc(), line)?;
    assert_eq!(rt; tokens.len(), want.len());
    for (token, (word, from, to)) in tokens.iter().zip(want.iter()) {
        assert_eq!(rt;
            *token,
            Token {
                word: *word,
                from: *from,
                to: *to
            }
        );
    }
    Ok(())
}

#[test]
fn faults_and_limits(rt: HostRuntime) -> Result<(), Fail> {
    let alloc = rt.alloc();
    let mut rows: Vec<(Vec<u8>, &'static str)> = Vec::new(alloc);
    for (line, want) in [
        ("", "none"),
        ("  \t # only a comment", "none"),
        ("a ! b", "byte"),
        ("a\rb", "byte"),
        ("1000000 # 1000001", "none"),
        ("1000001", "literal"),
        ("gives 1000000000000", "none"),
        ("gives 1000000000001", "literal"),
        ("99999999999999999999999999999999999999", "literal"),
        ("1000001 gives 1", "literal"),
        ("a2345678901234567890123456789012", "none"),
        ("a23456789012345678901234567890123", "name"),
        ("a23456789012345678901234567890123 1000001", "name"),
        ("1000001 a23456789012345678901234567890123", "literal"),
        ("1000001 $", "byte"),
    ] {
        rows.push((line.as_bytes().to_vec(alloc)?, want))?;
    }
    for (count, piece, want) in [
        (1024, ",", "none"),
        (1025, ",", "tokens"),
        (64, "(", "none"),
        (65, "(", "nesting"),
        (65, "not ", "nesting"),
        (1025, "(", "tokens"),
    ] {
        let mut line = Vec::new(alloc);
        for _ in 0..count {
            line.extend_from_slice(piece.as_bytes())?;
        }
        rows.push((line, want))?;
    }
    for (line, want) in rows {
        let got = match outcome(alloc, line.as_slice()) {
            Ok(_) => "none",
            Err(name) => name,
        };
        assert_eq!(rt; got, want);
    }
    Ok(())
}

#[test]
fn contents(rt: HostRuntime) {
    for (line, want) in [("a\r", "a"), ("", ""), ("#\r", ""), ("b", "b")] {
        assert_eq!(rt; content(line.as_bytes()), want.as_bytes());
    }
}

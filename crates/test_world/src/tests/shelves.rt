ghost use Rattle.std.specs.Prelude.{◌<◌};

use super::only;
use crate::*;
use std::alloc::{AllocError, Global};
use std::test::Fail;
use std::{env, fs, process};

// What a call of `load` is given, the number of the call of the shelf that fails, where 0 stands
// for none, and what is answered.
#[derive(Drop)]
struct Loaded<'a> {
    name: &'a str,
    most: usize,
    chunk: usize,
    bad: u64,
    answer: Result<&'a [u8], LoadError>,
}

fn held(alloc: Global, pairs: &[(&str, &[u8])]) -> Result<Vec<(String, Vec<u8>)>, AllocError> {
    let mut texts = Vec::new(alloc);
    for (name, bytes) in pairs {
        let text = (String::from_str(alloc, name)?, bytes.to_vec(alloc)?);
        texts.push(text)?;
    }
    Ok(texts)
}

fn bytes_of(loaded: &Result<Text, LoadError>) -> Result<&[u8], LoadError> {
    match loaded {
        Ok(text) => Ok(text.bytes()),
        Err(error) => Err(*error),
    }
}

const LOADED: [Loaded<'static>; 11] = [
    Loaded {
        name: "A",
        most: 5,
        chunk: 2,
        bad: 0,
        answer: Ok(b"hello"),
    },
    Loaded {
        name: "A",
        most: 5,
        chunk: 100,
        bad: 0,
        answer: Ok(b"hello"),
    },
    Loaded {
        name: "A",
        most: 4,
        chunk: 2,
        bad: 0,
        answer: Err(LoadError::TooLong),
    },
    Loaded {
        name: "A",
        most: 4,
        chunk: 100,
        bad: 0,
        answer: Err(LoadError::TooLong),
    },
    Loaded {
        name: "A",
        most: 5,
        chunk: 2,
        bad: 1,
        answer: Err(LoadError::Fault),
    },
    Loaded {
        name: "A",
        most: 5,
        chunk: 2,
        bad: 2,
        answer: Err(LoadError::Fault),
    },
    Loaded {
        name: "A",
        most: 5,
        chunk: 2,
        bad: 5,
        answer: Err(LoadError::Fault),
    },
    Loaded {
        name: "A",
        most: 5,
        chunk: 2,
        bad: 6,
        answer: Ok(b"hello"),
    },
    Loaded {
        name: "-",
        most: 100,
        chunk: 1,
        bad: 0,
        answer: Ok(b"input"),
    },
    Loaded {
        name: "empty",
        most: 0,
        chunk: 1,
        bad: 0,
        answer: Ok(b""),
    },
    Loaded {
        name: "B",
        most: 5,
        chunk: 2,
        bad: 0,
        answer: Err(LoadError::Fault),
    },
];

#[test]
fn loads_what_is_held(rt: HostRuntime) -> Result<(), Fail> {
    let pairs: [(&str, &[u8]); 4] = [
        ("A", b"hello"),
        ("-", b"input"),
        ("A", b"other"),
        ("empty", b""),
    ];
    for row in LOADED {
        assert!(rt; 0 < row.chunk && row.most <= 100 && row.bad < 100);
        let texts = held(rt.alloc(), &pairs)?;
        let mut shelf = MemShelf::new(texts, only(rt.alloc(), row.bad)?, row.chunk);
        let loaded = load(rt.alloc(), &mut shelf, row.name, row.most);
        let (name, most, chunk, bad) = (row.name, row.most, row.chunk, row.bad);
        assert_eq!(rt;
            bytes_of(&loaded),
            row.answer,
            "{name} {most} {chunk} {bad}"
        );
    }
    Ok(())
}

#[test]
fn pulls_the_least_of_three(rt: HostRuntime) -> Result<(), Fail> {
    let texts = held(rt.alloc(), &[("A", b"abcdefg")])?;
    let mut shelf = MemShelf::new(texts, only(rt.alloc(), 4)?, 3);
    let mut buf = [0; 2];
    assert_eq!(rt; shelf.pull(&mut buf), Ok(0));
    assert_eq!(rt; shelf.take_up("A"), Ok(()));
    assert_eq!(rt; shelf.pull(&mut buf), Ok(2));
    assert_eq!(rt; buf.as_slice(), b"ab".as_slice());
    assert_eq!(rt; shelf.pull(&mut buf), Err(Fault));
    let mut long = [0; 9];
    assert_eq!(rt; shelf.pull(&mut long), Ok(3));
    assert_eq!(rt; &long[..3], b"cde".as_slice());
    assert_eq!(rt; shelf.pull(&mut long), Ok(2));
    assert_eq!(rt; shelf.pull(&mut long), Ok(0));
    assert_eq!(rt; shelf.take_up("B"), Err(Fault));
    assert_eq!(rt; shelf.pull(&mut long), Ok(0));
    Ok(())
}

#[test]
fn reads_real_files(rt: HostRuntime) -> Result<(), Fail> {
    let mut path = env::temp_dir(&rt)?;
    let number = process::id(rt.process());
    path.push(format!(in rt.alloc(); "test_world_{number}")?.as_str())?;
    fs::write(&rt, path.as_str(), "a real file\n")?;
    let mut shelf = FileShelf::new(&rt);
    let mut buf = [0; 4];
    assert_eq!(rt; shelf.take_up(path.as_str()), Ok(()));
    assert_eq!(rt; shelf.take_up("/no such file"), Err(Fault));
    assert_eq!(rt; shelf.pull(&mut buf), Ok(0));
    let whole = load(rt.alloc(), &mut shelf, path.as_str(), 12);
    let longer = load(rt.alloc(), &mut shelf, path.as_str(), 11);
    fs::remove_file(&rt, path.as_str())?;
    let missing = load(rt.alloc(), &mut shelf, path.as_str(), 12);
    let folder = load(rt.alloc(), &mut shelf, "/", 12);
    assert_eq!(rt; bytes_of(&whole), Ok(b"a real file\n".as_slice()));
    assert_eq!(rt; bytes_of(&longer), Err(LoadError::TooLong));
    assert_eq!(rt; bytes_of(&missing), Err(LoadError::Fault));
    assert_eq!(rt; bytes_of(&folder), Err(LoadError::Fault));
    Ok(())
}

// Where standard input was not given or has ended, a pull gives nothing.
#[test]
fn reads_standard_input(rt: HostRuntime) -> Result<(), Fail> {
    let mut shelf = FileShelf::new(&rt);
    let mut buf = [0; 4];
    assert_eq!(rt; shelf.take_up("-"), Ok(()));
    assert!(rt; shelf.pull(&mut buf).is_ok());
    Ok(())
}

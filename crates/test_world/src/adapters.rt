//! The real shelf and the real sink: files by name, standard input, output and error.
ghost use Rattle.std.specs.Prelude.{◌≡◌, ◌<◌, ◌≤◌, length, OnOk, OnErr, IfOk};
ghost use Rattle.test_world.specs.Count.{raised};

use crate::count::failed;
use crate::holding::{HoldingWriter, MOST_HELD};
use crate::shelf::{Fault, Shelf};
use crate::sink::Sink;
use std::fs::File;
use std::io::{self, Input, Read, Stderr, Stdout, Write};
use std::marker::Model;
use std::rt::Files;

#[derive(Drop)]
enum Source<D, I> {
    Nothing,
    Document(D),
    StandardInput(I),
}

/// The files of the system by their names, and standard input under the name `-`. It is seen as
/// the count of its faults, and tells nothing of what the files hold.
#[derive(Drop)]
pub struct FileShelf<R: Files + Input> {
    runtime: R,
    source: Source<R::File, R::Reader>,
    faults: u64,
}

impl<R: Files + Input> Model for FileShelf<R> {
    ghost use Rattle.std.specs.Prelude.{ℕ};

    ghost Value = { ℕ };

    ghost view = { λ s. s.faults };
}

impl<R: Files + Input> FileShelf<R> {
    /// The shelf of the files and the input that the runtime gives.
    pub fn new(runtime: R) -> FileShelf<R>
        ensures { result ≡ 0 }
    {
        FileShelf {
            runtime,
            source: Source::Nothing,
            faults: 0,
        }
    }
}

impl<R: Files + Input> Shelf for FileShelf<R> {
    ghost use Rattle.std.specs.Prelude.{None, false};

    ghost state = { λ faults. record { shown = None; visited = None; faults = faults; sound = false } };

    fn take_up(&mut self, name: &str) -> Result<(), Fault>
        ensures ok { OnOk result (self.new ≡ self.old) }
        ensures err { OnErr result (self.new ≡ raised self.old) }
    {
        self.source = Source::Nothing;
        if name == "-" {
            self.source = Source::StandardInput(self.runtime.reader());
            return Ok(());
        }
        let Ok(document) = File::open(&self.runtime, name) else {
            return Err(failed(&mut self.faults));
        };
        self.source = Source::Document(document);
        Ok(())
    }

    fn pull(&mut self, buf: &mut [u8]) -> Result<usize, Fault>
        requires { 0 < length buf.old }
        ensures within { IfOk result (λ n. n ≤ length buf.new) }
        ensures ok { OnOk result (self.new ≡ self.old) }
        ensures err { OnErr result (self.new ≡ raised self.old) }
    {
        let pulled = match &mut self.source {
            Source::Nothing => Ok(0),
            Source::Document(document) => document.read(buf),
            Source::StandardInput(input) => input.read(buf),
        };
        match pulled {
            Ok(count) => Ok(count),
            Err(_) => Err(failed(&mut self.faults)),
        }
    }
}

#[derive(Drop)]
enum Stream {
    Output(Stdout),
    Error(Stderr),
}

impl Write for Stream {
    fn write(&mut self, buf: &[u8]) -> io::Result<usize> {
        match self {
            Stream::Output(stdout) => stdout.write(buf),
            Stream::Error(stderr) => stderr.write(buf),
        }
    }

    fn flush(&mut self) -> io::Result<()> {
        Ok(())
    }
}

/// Standard output or standard error. It is seen as the count of its faults, and tells nothing of
/// what it took. Standard output holds back up to 8 KiB until it is flushed; standard error and
/// longer pieces are written at once. What is never flushed is lost.
#[derive(Drop)]
pub struct StdSink {
    stream: HoldingWriter<Stream>,
}

impl Model for StdSink {
    ghost use Rattle.std.specs.Prelude.{ℕ};

    ghost Value = { ℕ };

    ghost view = { λ s. s.stream.faults };
}

impl StdSink {
    /// The sink that writes to standard output.
    pub fn output(stdout: Stdout) -> StdSink
        ensures { result ≡ 0 }
    {
        StdSink {
            stream: HoldingWriter::new(Stream::Output(stdout), MOST_HELD),
        }
    }

    /// The sink that writes to standard error.
    pub fn error(stderr: Stderr) -> StdSink
        ensures { result ≡ 0 }
    {
        StdSink {
            stream: HoldingWriter::new(Stream::Error(stderr), 0),
        }
    }
}

impl Sink for StdSink {
    ghost use Rattle.std.specs.Prelude.{None};

    ghost state = { λ faults. record { taken = None; faults = faults; puts = 0 } };

    fn put(&mut self, bytes: &[u8]) -> Result<usize, Fault>
        requires { 0 < length bytes.now }
        ensures some { IfOk result (λ n. 0 < n) }
        ensures within { IfOk result (λ n. n ≤ length bytes.now) }
        ensures ok { OnOk result (self.new ≡ self.old) }
        ensures err { OnErr result (self.new ≡ raised self.old) }
    {
        self.stream.put(bytes)
    }

    fn flush(&mut self) -> Result<(), Fault>
        ensures ok { OnOk result (self.new ≡ self.old) }
        ensures err { OnErr result (self.new ≡ raised self.old) }
    {
        self.stream.flush()
    }
}

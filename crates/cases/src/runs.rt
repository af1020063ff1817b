//! A whole run over a reader and a writer that take few bytes at a time, are interrupted, or fail in mid-stream.
//! data/pass is the beginning of the shipped pass, cut within its block 130, and data/text what is to be written for
//! it. A glyph is printed of each run: a dot where it ended as it must and wrote what it must. The first two runs
//! are of the worked block and of no input.
use full_io::read_full;
use pass::run::drive_all;
use std::fs::File;
use std::io;
use std::io::{ErrorKind, Read, Write};
use tick_block::layout::BLOCK_BYTES;

// How many bytes a read gives or a write takes at most.
const PIECES: [usize; 5] = [1, 7, 512, 513, 65536];

// Gives its bytes in pieces, and every other call is interrupted; at their end it fails or not.
#[derive(Drop)]
struct Giver<'a> {
    bytes: &'a [u8],
    piece: usize,
    interrupted: bool,
    fails: bool,
}

impl Read for Giver<'_> {
    fn read(&mut self, buf: &mut [u8]) -> io::Result<usize> {
        self.interrupted = !self.interrupted;
        if self.interrupted {
            return Err(io::Error::from(ErrorKind::Interrupted));
        }
        if self.fails && self.bytes.is_empty() {
            return Err(io::Error::from(ErrorKind::BrokenPipe));
        }
        let n = buf.len().min(self.piece).min(self.bytes.len());
        buf[..n].copy_from_slice(&self.bytes[..n]);
        self.bytes = &self.bytes[n..];
        Ok(n)
    }
}

// Takes bytes in pieces as long as there is room, and then fails; every other call is interrupted. It holds them to the
// text that is wanted.
#[derive(Drop)]
struct Taker<'a> {
    wanted: &'a [u8],
    piece: usize,
    interrupted: bool,
    room: usize,
    equal: bool,
}

impl Write for Taker<'_> {
    fn write(&mut self, buf: &[u8]) -> io::Result<usize> {
        self.interrupted = !self.interrupted;
        if self.interrupted {
            return Err(io::Error::from(ErrorKind::Interrupted));
        }
        if self.room == 0 {
            return Err(io::Error::from(ErrorKind::BrokenPipe));
        }
        let n = buf.len().min(self.piece).min(self.room);
        self.room -= n;
        match self.wanted.strip_prefix(&buf[..n]) {
            Some(rest) => self.wanted = rest,
            None => self.equal = false,
        }
        Ok(n)
    }

    fn flush(&mut self) -> io::Result<()> {
        Ok(())
    }
}

// What a run is given, where it is to fail, and what it is to write.
#[derive(Clone, Copy)]
struct Run<'a> {
    pass: &'a [u8],
    read_fails: bool,
    text: &'a [u8],
    room: usize,
}

// A run that is not to fail.
fn whole<'a>(pass: &'a [u8], text: &'a [u8]) -> Run<'a> {
    Run {
        pass,
        read_fails: false,
        text,
        room: usize::MAX,
    }
}

// A run whose reader is to fail behind its bytes.
fn read_failing<'a>(pass: &'a [u8], text: &'a [u8]) -> Run<'a> {
    Run {
        read_fails: true,
        ..whole(pass, text)
    }
}

// A run whose writer is to fail behind this text.
fn write_failing<'a>(pass: &'a [u8], text: &'a [u8]) -> Run<'a> {
    Run {
        room: text.len(),
        ..whole(pass, text)
    }
}

// Version 1, k 4, the check of these two, and zeros.
fn worked_block() -> [u8; BLOCK_BYTES] {
    let mut block = [0; BLOCK_BYTES];
    block[0] = 1;
    block[420] = 4;
    block[508] = 6;
    block
}

// A dot where a run in pieces of this length ended as it must, and wrote all that it must and no more.
fn glyph(run: Run<'_>, piece: usize) -> u8 {
    let mut giver = Giver {
        bytes: run.pass,
        piece,
        interrupted: false,
        fails: run.read_fails,
    };
    let mut taker = Taker {
        wanted: run.text,
        piece,
        interrupted: false,
        room: run.room,
        equal: true,
    };
    let fails = run.read_fails || run.room < usize::MAX;
    let failed = drive_all(&mut giver, &mut taker).is_err();
    if failed == fails && taker.equal && taker.wanted.is_empty() {
        b'.'
    } else {
        b'x'
    }
}

// A line: a glyph for each length of the pieces.
fn print_run(rt: &HostRuntime, run: Run<'_>) -> io::Result<()> {
    let mut line = [b'\n'; 6];
    for (place, piece) in line[..5].iter_mut().zip(PIECES) {
        *place = glyph(run, piece);
    }
    rt.write_all(&line)
}

// The first batch is 65,536 bytes long, and its lines 5,778.
fn print_runs(rt: &HostRuntime, pass: &[u8; 66660], text: &[u8; 5901]) -> io::Result<()> {
    let worked = b"0 Q - N 00000000 00000000 00000000 00000000\n1 1 0 0 0 0 0 0 0\n";
    print_run(rt, whole(&worked_block(), worked))?;
    print_run(rt, whole(&[], b"0 0 0 0 0 0 0 0 0\n"))?;
    print_run(rt, whole(pass, text))?;
    print_run(rt, whole(&pass[512..], b"0 ! 10\n0 0 0 0 0 0 0 0 0\n"))?;
    print_run(rt, read_failing(&pass[..65535], &text[..0]))?;
    print_run(rt, read_failing(&pass[..65536], &text[..5778]))?;
    print_run(rt, read_failing(pass, &text[..5778]))?;
    print_run(rt, write_failing(pass, &text[..0]))?;
    print_run(rt, write_failing(pass, &text[..5777]))?;
    print_run(rt, write_failing(pass, &text[..5900]))
}

// Reads the pass and its text, and prints the glyphs of its runs.
pub(crate) fn drive_runs(rt: &HostRuntime) -> io::Result<()> {
    let mut pass = [0; 66660];
    let mut text = [0; 5901];
    read_full(&mut File::open(rt, "pass")?, &mut pass)?;
    read_full(&mut File::open(rt, "text")?, &mut text)?;
    print_runs(rt, &pass, &text)
}

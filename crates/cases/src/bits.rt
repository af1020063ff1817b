//! Variants of the block in data/, which an empty pass accepts: each of its bits turned, without and with a new check,
//! and each length up to 1,024 bytes. An empty pass is given each, and a glyph is printed of it.
use full_io::read_full;
use line_text::line::Line;
use pass::pass::Pass;
use std::fs::File;
use std::io;
use tick_block::check::renew_check;
use tick_block::layout::BLOCK_BYTES;
use tick_block::words::{put_word, word_at};

// A refusal's number as a hexadecimal digit.
fn digit(number: u8) -> u8 {
    char::from_digit(number as u32, 16).unwrap_or('?') as u8
}

// How an empty pass answers a block: a dot for a tick, or the refusal.
fn glyph(block: &[u8]) -> u8 {
    let mut pass = Pass::Empty;
    match pass.drive(block) {
        Line::Tick(_) => b'.',
        Line::Refused(r) => digit(r.refusal.number()),
    }
}

// The glyph with one bit of a word turned, with the check as it was or made new. The block is left as it was.
fn turned(block: &[u8; BLOCK_BYTES], word: u8, bit: u8, fresh: bool) -> u8 {
    let mut turned = *block;
    let i = word as usize;
    put_word(&mut turned, i, word_at(block, i) ^ (1 << (bit % 32)));
    if fresh {
        renew_check(&mut turned);
    }
    glyph(&turned)
}

// A word's line: a glyph for each of its bits, the lowest first.
fn print_word(
    rt: &HostRuntime,
    block: &[u8; BLOCK_BYTES],
    word: u8,
    fresh: bool,
) -> io::Result<()> {
    let mut line = [b'\n'; 33];
    for (bit, glyph) in (0..32).zip(&mut line) {
        *glyph = turned(block, word, bit, fresh);
    }
    rt.write_all(&line)
}

// A line for each of the first words.
fn print_words(
    rt: &HostRuntime,
    block: &[u8; BLOCK_BYTES],
    words: u8,
    fresh: bool,
) -> io::Result<()> {
    for word in 0..words {
        print_word(rt, block, word, fresh)?;
    }
    Ok(())
}

// One line: a glyph for each length.
fn print_lengths(rt: &HostRuntime, bytes: &[u8; 1024]) -> io::Result<()> {
    let mut line = [b'\n'; 1026];
    for (n, place) in line[..1025].iter_mut().enumerate() {
        *place = glyph(&bytes[..n]);
    }
    rt.write_all(&line)
}

// The check's own bits are turned only without a new check.
fn print_variants(rt: &HostRuntime, block: &[u8; BLOCK_BYTES]) -> io::Result<()> {
    print_words(rt, block, 128, false)?;
    print_words(rt, block, 127, true)?;
    let mut long = [0; 1024];
    long[..BLOCK_BYTES].copy_from_slice(block);
    print_lengths(rt, &long)
}

// Reads the block, and prints the glyphs of its variants.
pub(crate) fn drive_variants(rt: &HostRuntime) -> io::Result<()> {
    let mut block = [0; BLOCK_BYTES];
    read_full(&mut File::open(rt, "block")?, &mut block)?;
    print_variants(rt, &block)
}

//! The lists of standard input, one behind the other: each holds runs of calls with the answers of the Rust itself, and
//! what it remembers after each call. Answers are compared bit for bit; NaN has one word. Prints a line for each list,
//! and which calls were the first mismatches.
mod brake; // brake.rt: the list of the active brake
mod compare; // compare.rt: the words of an answer against those wanted
mod input; // input.rt: a record, as it is read
mod lag; // lag.rt: the list of the encoder lag
mod layout; // layout.rt: how a list is laid out
mod pids; // pids.rt: the lists of the PID controllers
mod subject; // subject.rt: what a run drives
mod words; // words.rt: the words that an answer is compared by

use crate::runs::compare::{agrees, show};
use crate::runs::input::read_record;
use crate::runs::layout::{Layout, ListOf, layout_of};
use crate::runs::subject::Subject;
use full_io::read_full;
use harness::report::write_line;
use harness::tally::Tally;
use std::io;
use tick_block::words::word_at;

fn cut_short(tally: Tally) -> Tally {
    Tally {
        cut_short: true,
        ..tally
    }
}

// Whether a call has the answer wanted. No answer is none, nor is one to a kind that is none.
fn is_right(layout: Layout, answer: Option<[u32; 12]>, call: &[u8]) -> bool {
    let Some(words) = answer else {
        return false;
    };
    (word_at(call, 0) < layout.kinds) & agrees(&words, call, layout.compared)
}

// Counts a call, and shows it where it is among the first mismatches.
fn judge(rt: &HostRuntime, tally: Tally, right: bool) -> io::Result<Tally> {
    if right {
        return Ok(tally.count(1, 0));
    }
    if tally.left_to_show() > 0 {
        show(rt, tally.records)?;
    }
    Ok(tally.count(1, 1))
}

// Reads one call, and makes it.
fn run_call(
    rt: &HostRuntime,
    list: ListOf,
    subject: &mut Option<Subject>,
    tally: Tally,
) -> io::Result<Tally> {
    let layout = layout_of(list);
    let Some(call) = read_record(rt, layout.call)? else {
        return Ok(cut_short(tally));
    };
    let answer = subject.as_mut().map(|subject| subject.step(&call));
    judge(rt, tally, is_right(layout, answer, &call))
}

// The calls of a run, as many as its header says, unless the input ends before.
fn run_calls(rt: &HostRuntime, list: ListOf, header: &[u8], mut tally: Tally) -> io::Result<Tally> {
    let mut subject = Subject::of(list, header);
    for _ in 0..word_at(header, layout_of(list).calls) {
        tally = run_call(rt, list, &mut subject, tally)?;
        if tally.cut_short {
            break;
        }
    }
    Ok(tally)
}

// Reads a run's header, and runs its calls.
fn run_one(rt: &HostRuntime, list: ListOf, tally: Tally) -> io::Result<Tally> {
    match read_record(rt, layout_of(list).header)? {
        Some(header) => run_calls(rt, list, &header, tally),
        None => Ok(cut_short(tally)),
    }
}

// The runs of a list, as many as its first word says, unless the input ends before.
fn run_list(rt: &HostRuntime, list: ListOf) -> io::Result<Tally> {
    let mut first = [0; 4];
    let mut tally = Tally {
        cut_short: read_full(&mut rt.stdin(), &mut first)? != 4,
        ..Tally::new()
    };
    for _ in 0..word_at(&first, 0) {
        tally = run_one(rt, list, tally)?;
        if tally.cut_short {
            break;
        }
    }
    Ok(tally)
}

// Runs the next list, and prints its line.
fn run(rt: &HostRuntime, list: ListOf, name: &str) -> io::Result<()> {
    let tally = run_list(rt, list)?;
    write_line(&mut io::writer(rt), name, tally)
}

// What stands behind the lists is no record, and shows.
fn test_end(rt: &HostRuntime) -> io::Result<()> {
    let mut after = [0; 1];
    if read_full(&mut rt.stdin(), &mut after)? != 0 {
        rt.println("more")?;
    }
    Ok(())
}

// Runs every list of standard input.
pub(crate) fn run_lists(rt: &HostRuntime) -> io::Result<()> {
    run(rt, ListOf::Pid1, "pid1.bin")?;
    run(rt, ListOf::Pid3, "pid3.bin")?;
    run(rt, ListOf::Pid4, "pid4.bin")?;
    run(rt, ListOf::Brake, "brake.bin")?;
    run(rt, ListOf::Lag, "lag.bin")?;
    test_end(rt)
}

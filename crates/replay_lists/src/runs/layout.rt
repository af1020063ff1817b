//! How a list of standard input is laid out: the number of runs; each run a header and calls.
//! compare/FORMATS.md lists the words.
ghost use Rattle.std.specs.Prelude.{◌≤◌};

/// Whose calls a list holds.
#[derive(Clone, Copy)]
pub enum ListOf {
    Pid1,
    Pid3,
    Pid4,
    Brake,
    Lag,
}

/// How long a header and a call are, and where in them the numbers stand.
#[derive(Clone, Copy)]
pub struct Layout {
    // The bytes of a header and of a call.
    pub header: usize,
    pub call: usize,
    // Which word of a header is the number of calls.
    pub calls: usize,
    // How many kinds of call there are.
    pub kinds: u32,
    // Which word of a call is the first that is compared.
    pub compared: u8,
}

fn laid_out(header: usize, call: usize, calls: usize, kinds: u32, compared: u8) -> Layout
    requires { (header ≤ 35) × (call ≤ 35) }
    ensures { (result.header ≤ 140) × (result.call ≤ 140) }
{
    Layout {
        header: 4 * header,
        call: 4 * call,
        calls,
        kinds,
        compared,
    }
}

// A PID list's numbers, in words, grow with its axes.
fn of_axes(n: u8) -> Layout
    requires { n ≤ 4 }
    ensures { (result.header ≤ 140) × (result.call ≤ 140) }
{
    let axes = n as usize;
    laid_out(3 + 8 * axes, 2 + 6 * axes, 0, 3, 2 + 3 * n)
}

// Each list's numbers, in words.
pub(crate) fn layout_of(list: ListOf) -> Layout
    ensures { (result.header ≤ 140) × (result.call ≤ 140) }
{
    match list {
        ListOf::Pid1 => of_axes(1),
        ListOf::Pid3 => of_axes(3),
        ListOf::Pid4 => of_axes(4),
        ListOf::Brake => laid_out(2, 17, 1, 2, 5),
        ListOf::Lag => laid_out(6, 7, 5, 3, 3),
    }
}

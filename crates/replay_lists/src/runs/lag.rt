//! The list of the encoder lag.
ghost use Rattle.std.specs.Prelude.{◌≡◌};
ghost use Rattle.replay_lists.specs.Lag.{is_wanted, lag_at, answer, stepped};

use controllers::first_order_lag::FirstOrderLag;
use controllers::first_order_lag::encoder::new_from_horizon;
use ieee754::bits::to_bits;
use linear::{Vector2f, ZEROS_2};
use tick_block::floats::floats_at;
use tick_block::words::word_at;

// A header has k, dt in µs, the number of steps, dt and the least time constant in s, and the
// number of calls. Whether the lag has these numbers.
#[tactic(auto, unfolding(crate::specs::Lag::is_wanted))]
fn is_wanted(lag: &FirstOrderLag, header: &[u8]) -> bool
    ensures { result ≡ is_wanted lag.now header.now }
{
    let steps = word_at(header, 2) as usize;
    let dt = to_bits(lag.dt()) == word_at(header, 3);
    let t_min = to_bits(lag.t_min()) == word_at(header, 4);
    (lag.n_steps() == steps) & dt & t_min
}

// The lag of a header. One of other numbers than the header's is none.
#[tactic(auto, unfolding(crate::specs::Lag::lag_at))]
pub(crate) fn lag_at(header: &[u8]) -> Option<FirstOrderLag>
    ensures { result ≡ lag_at header.now }
{
    match new_from_horizon(word_at(header, 0)) {
        Ok(lag) if is_wanted(&lag, header) => Some(lag),
        _ => None,
    }
}

// A call has its kind and the input, and then what is compared. The last kind is reset. The output
// is that of `invert`, and otherwise wanted as 0.
#[tactic(auto, unfolding(crate::specs::Lag::answer, linear::specs::Vector::zeros2))]
fn answer(lag: &mut FirstOrderLag, call: &[u8]) -> Vector2f
    ensures { let a = answer lag.old call.now in (result ≡ a.output) × (lag.new ≡ a.lag) }
{
    let input = Vector2f::from(floats_at(call, 1));
    match word_at(call, 0) {
        0 => {
            lag.step(input);
            ZEROS_2
        }
        1 => lag.invert(input),
        _ => {
            lag.reset();
            ZEROS_2
        }
    }
}

// The words after a call: the output, the state, and zeros.
#[tactic(auto, unfolding(crate::specs::Lag::stepped))]
pub(crate) fn step(lag: &mut FirstOrderLag, call: &[u8]) -> [u32; 12]
    ensures { let told = stepped lag.old call.now in (result ≡ told.words) × (lag.new ≡ told.controller) }
{
    let output = answer(lag, call);
    let state = lag.state();
    let mut words = [0; 12];
    words[0] = to_bits(output.x);
    words[1] = to_bits(output.y);
    words[2] = to_bits(state.x);
    words[3] = to_bits(state.y);
    words
}

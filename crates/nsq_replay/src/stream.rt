// The stored list, call by call.
ghost use Rattle.std.specs.Prelude.{◌≤◌};

use crate::state::Held;
use crate::{input, print};
use fixed::wrap;
use limits::count;
use nsq::entry;
use settings_row::named;
use silk::structs::Settings;

// The length of the row for the pulses: n times L. Another n than 2 or 4, or an L above 80, is refused before a row is looked at.
fn frame_length(s: Settings) -> usize
    ensures { result ≤ 320 }
{
    let l = count::count(s.subfr_length).min(320);
    let n = if s.nb_subfr == 4 { 4 } else { 2 };
    (n * l).min(320)
}

// A call: its settings and rows, answered and printed. What is handed back is the state after it.
fn call(before: Held) -> Held {
    let mut words = [0; 320];
    input::row(&mut words, |z| z);
    let s = named::settings_of(&words);
    let (mut x, mut pred, mut long, mut ar) = ([0; 320], [0; 320], [0; 320], [0; 320]);
    let x = input::row(&mut x, wrap::low16);
    let pred = input::row(&mut pred, wrap::low16);
    let long = input::row(&mut long, wrap::low16);
    let ar = input::row(&mut ar, wrap::low16);
    let (mut harm, mut tilt, mut lf) = ([0; 320], [0; 320], [0; 320]);
    let harm = input::row(&mut harm, |z| z);
    let tilt = input::row(&mut tilt, |z| z);
    let lf = input::row(&mut lf, |z| z);
    let (mut gains, mut lags) = ([0; 320], [0; 320]);
    let gains = input::row(&mut gains, |z| z);
    let lags = input::row(&mut lags, |z| z);
    let from = before.chosen();
    let mut space = [0; 320];
    let out = &mut space[..frame_length(s)];
    let r = entry::silk_NSQ_del_dec(
        s, from.state, x, out, pred, long, ar, harm, tilt, lf, gains, lags,
    );
    let (number, seed, state) = match r {
        Ok(coded) => (0, coded.seed, coded.state),
        Err(refused) => (refused.why.number(), refused.seed, refused.state),
    };
    print::answer(s, number, seed, &state, from.rand_seed, out);
    Held {
        state,
        rand_seed: from.rand_seed,
    }
}

// The next call of the list, if there is one, between its lines `call NAME` and `go`.
pub fn next(held: Held) -> Held {
    let first = input::byte();
    if first == 0 {
        return held;
    }
    input::echo(first);
    let after = call(held);
    input::number();
    after
}

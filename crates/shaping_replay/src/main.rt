// Replays answers of the Rust to every public function of `shaping`, `harmonic` and `warped`: for each one a digest (FNV-1a,
// 64 bits) of 2000 answers, and the first four of them. The arguments are made from a seed, with many words at the ends of their range.
//
// The file `stdout` was not made by this program. tests/rust/shaping_replay.rs makes the same arguments and answers by the
// lines of `NSQ_del_dec.rs` (unopus 0.0.1) themselves, cut out word for word, and is built without overflow checks:
//     rustc -O -C overflow-checks=no tests/rust/shaping_replay.rs -o shaping_replay && ./shaping_replay > crates/shaping_replay/stdout
#![tactic(auto)]

mod answers;
mod words;

use digests::fnv::Fnv64;
use harmonic::terms;
use noise::{noise_terms, output};
use prints::output::Output;
use seeds::generator;
use std::fmt::Write;

// One function's line: its name, the first four of 2000 answers and the digest of all. Each answer is to a seed and the number of the turn.
// A write that fails is passed over: the run goes on to its end.
fn replay<F: Fn(i32, usize) -> i32>(name: &str, answer: F)
    requires { F.IsAlwaysCallable answer }
{
    let _ = write!(Output, "{name}");
    let mut seed = 1;
    let mut digest = Fnv64::new();
    for i in 0..2000 {
        seed = generator::rand(seed);
        let a = answer(seed, i);
        if i < 4 {
            let _ = write!(Output, " {a}");
        }
        digest = digest.word(a);
    }
    let _ = writeln!(Output, " {:016x}", digest.sum);
}

// The same of a function of up to three words.
fn of_words<F: Fn(i32, i32, i32) -> i32>(name: &str, answer: F)
    requires { F.IsAlwaysCallable answer }
{
    replay(name, |seed, _i| {
        let [x, y, z] = words::words::<3>(seed);
        answer(x, y, z)
    });
}

fn main() {
    replay("short_prediction", answers::short);
    replay("ltp_prediction", answers::long);
    replay("warped_filter, sum", answers::warped_sum);
    replay("warped_filter, words", answers::warped_words);
    of_words("n_AR", noise_terms::n_AR);
    of_words("n_LF", noise_terms::n_LF);
    of_words("harm_shape_packed", |x, _y, _z| terms::harm_shape_packed(x));
    replay("n_LTP", answers::harmonic_term);
    replay("residual", |seed, _i| answers::residual(seed));
    replay("pulse_of", |seed, _i| {
        i32::from(output::pulse_of(words::level(seed)))
    });
    of_words("xq_out8", |x, y, _z| i32::from(output::xq_out(x, y, 8)));
    of_words("xq_out14", |x, y, _z| i32::from(output::xq_out(x, y, 14)));
}

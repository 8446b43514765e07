// Standard output as a writer of text.
ghost use Rattle.std.specs.Prelude.{IsOk};

use std::fmt;

// Standard output. A write that fails is passed over: what follows is written all the same, and the run goes on to its end.
#[derive(Drop)]
pub struct Output;

impl fmt::Write for Output {
    fn write_str(&mut self, s: &str) -> fmt::Result
        ensures passed_over { IsOk result }
    {
        io::write_all(1, s.as_bytes());
        Ok(())
    }
}

// What a call is answered, and the lengths of the rows that it lends.
ghost use Rattle.std.specs.Prelude.{◌≡◌};
ghost use Rattle.refusal_rules.specs.Code.{refusal_code};

// Why a call is refused, in the order of the numbers of docs/RULES.md.
#[derive(Clone, Copy, PartialEq, Eq, Debug)]
pub enum Refusal {
    Lengths,
    Orders,
    Paths,
    Kinds,
    Rows,
    Gains,
    Lags,
}

// Accepted, or why not. `code_of` gives the number of each answer.
pub type Answer = Result<(), Refusal>;

impl Refusal {
    // Its number. By this name and no `From`: the clause cites the definition.
    pub fn number(self) -> u32
        ensures { result ≡ refusal_code self }
    {
        match self {
            Refusal::Lengths => 1,
            Refusal::Orders => 2,
            Refusal::Paths => 3,
            Refusal::Kinds => 4,
            Refusal::Rows => 5,
            Refusal::Gains => 6,
            Refusal::Lags => 7,
        }
    }
}

// How long the rows are of which only the length decides. The rows of gains and of lags are looked into, so they are lent.
#[derive(Clone, Copy)]
pub struct Sizes {
    pub samples: usize,
    pub pred_coef: usize,
    pub ltp_coef: usize,
    pub ar: usize,
    pub harm_gain: usize,
    pub tilt: usize,
    pub lf: usize,
    pub pulses: usize,
}

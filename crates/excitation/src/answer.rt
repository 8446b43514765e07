// What the reader answers.
ghost use Rattle.std.specs.Prelude.{◌≡◌};
ghost use Rattle.excitation.specs.Code.{code_of};

// Why the reader refuses, in the order of the numbers.
#[derive(Clone, Copy, PartialEq, Eq, Debug)]
pub enum Refusal {
    Seeds,
    Kinds,
    Rows,
}

// Accepted, or why not.
pub type Answer = Result<(), Refusal>;

// The number of an answer, accepted or not, which is why it is no `From` of a refusal.
pub fn number(a: Answer) -> u32
    ensures { result ≡ code_of a }
{
    match a {
        Ok(()) => 0,
        Err(Refusal::Seeds) => 1,
        Err(Refusal::Kinds) => 2,
        Err(Refusal::Rows) => 3,
    }
}

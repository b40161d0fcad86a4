ghost use Rattle.std.specs.Prelude.{◌≡◌};
ghost use Rattle.proof_lines.specs.Flaws.{both, kind_of, least};

/// What is wrong with a line, wherever it stands.
#[derive(Clone, Copy)]
pub enum Flaw {
    /// A byte outside 32 to 126.
    Byte,
    /// The first words begin no line.
    Word,
    /// The number of words is wrong, or spaces are.
    Width,
    /// A number isn't of its form or not in its range.
    Number,
    /// A flight, fleet or station is unknown.
    Name,
}

impl Flaw {
    /// Its number among the kinds of faults of a proof's text. Takes no memory.
    pub fn kind(self) -> u8
        ensures { result ≡ kind_of self }
    {
        match self {
            Flaw::Byte => 2,
            Flaw::Word => 4,
            Flaw::Width => 5,
            Flaw::Number => 6,
            Flaw::Name => 7,
        }
    }
}

/// Of two flaws the one of the least kind.
pub fn least(a: Flaw, b: Flaw) -> Flaw
    ensures { result ≡ least a b }
{
    if a.kind() <= b.kind() { a } else { b }
}

/// Two readings of one line, or the least of their flaws.
pub fn both<A: Copy, B: Copy>(a: Result<A, Flaw>, b: Result<B, Flaw>) -> Result<(A, B), Flaw>
    ensures { result ≡ both a b }
{
    match a {
        Ok(a) => match b {
            Ok(b) => Ok((a, b)),
            Err(flaw) => Err(flaw),
        },
        Err(flaw) => match b {
            Ok(_) => Err(flaw),
            Err(other) => Err(least(flaw, other)),
        },
    }
}

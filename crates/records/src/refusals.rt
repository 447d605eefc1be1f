// The refusals (rules R1 to R20), a case each; a case holds its place where the paper does not fix it.
ghost use Rattle.std.specs.Prelude.{◌≡◌};
ghost use Rattle.records.specs.Refusals.{refusal_of};

#[derive(Clone, Copy)]
pub enum Refusal {
    Short,
    Long,
    NoStart,
    Count,
    NoEnd(usize),
    Checksum(usize),
    Number,
    Kind,
    Character(usize),
    Form(usize),
    Value(usize),
    NotSent,
    Range,
    NoRoom,
    State,
    Busy,
    Full,
    Mark(usize),
    Length(usize),
    CutOff(usize),
}

// The paper's number of a refusal.
// It and place_of are no From, which would not say which of a refusal's two numbers it gives.
pub fn number_of(refusal: Refusal) -> u8
    ensures { result ≡ (refusal_of refusal).number }
{
    match refusal {
        Refusal::Short => 1,
        Refusal::Long => 2,
        Refusal::NoStart => 3,
        Refusal::Count => 4,
        Refusal::NoEnd(_) => 5,
        Refusal::Checksum(_) => 6,
        Refusal::Number => 7,
        Refusal::Kind => 8,
        Refusal::Character(_) => 9,
        Refusal::Form(_) => 10,
        Refusal::Value(_) => 11,
        Refusal::NotSent => 12,
        Refusal::Range => 13,
        Refusal::NoRoom => 14,
        Refusal::State => 15,
        Refusal::Busy => 16,
        Refusal::Full => 17,
        Refusal::Mark(_) => 18,
        Refusal::Length(_) => 19,
        Refusal::CutOff(_) => 20,
    }
}

// The paper's place of a refusal.
pub fn place_of(refusal: Refusal) -> usize
    ensures { result ≡ (refusal_of refusal).place }
{
    match refusal {
        Refusal::Count => 1,
        Refusal::Kind => 3,
        Refusal::Number => 4,
        Refusal::NoEnd(place)
        | Refusal::Checksum(place)
        | Refusal::Character(place)
        | Refusal::Form(place)
        | Refusal::Value(place)
        | Refusal::Mark(place)
        | Refusal::Length(place)
        | Refusal::CutOff(place) => place,
        _ => 0,
    }
}

// Why a call is refused, and the number of each reason. A call answers with the first reason that holds, in the order of include/irumbolai.h: 1, 2,
// 12, 13, then 3 to 9, and 16, 14 and 15 before 9; what is wrong with a header or the end of an image comes before all others.
#![tactic(auto)]

ghost use Rattle.std.specs.Prelude.{◌≡◌, cond};
ghost use Rattle.refusal.specs.Refusals.{number, told};

#[derive(Clone, Copy, Debug, PartialEq, Eq)]
pub enum Refusal {
    // 1: the members, or the guards that are compared, are not 3 to 16.
    Members,
    // 2: the stripes are none, or more than an array can have.
    Stripes,
    // 3: a block or a stripe at or past the end.
    Place,
    // 4: a state that does not fit.
    State,
    // 5: a member at or past the number of members.
    Member,
    // 6: a buffer of fixed length has another.
    Length,
    // 7: a piece longer than what its member lacks.
    Piece,
    // 8: a finish before all members are whole.
    Unfinished,
    // 9: blocks that are needed are not all good, or their guards do not agree.
    Bad,
    // 10: a header that is short, or that no version has.
    Header,
    // 11: an image that ends early, or goes on after its end.
    Image,
    // 12: no such guard method.
    Method,
    // 13: a row length that is none, or that does not divide the stripes.
    Row,
    // 14: no entry of the record is free.
    Full,
    // 15: the stripe is entered in the record already.
    Entered,
    // 16: the record does not fit the array.
    Record,
}

// The number of a reason.
impl From<Refusal> for u8 {
    ghost from_gives = { λ refusal n. n ≡ number refusal };

    fn from(refusal: Refusal) -> u8 {
        match refusal {
            Refusal::Members => 1,
            Refusal::Stripes => 2,
            Refusal::Place => 3,
            Refusal::State => 4,
            Refusal::Member => 5,
            Refusal::Length => 6,
            Refusal::Piece => 7,
            Refusal::Unfinished => 8,
            Refusal::Bad => 9,
            Refusal::Header => 10,
            Refusal::Image => 11,
            Refusal::Method => 12,
            Refusal::Row => 13,
            Refusal::Full => 14,
            Refusal::Entered => 15,
            Refusal::Record => 16,
        }
    }
}

// The number that an answer tells: 0 where the call is done.
pub fn told<T: Drop>(answer: Result<T, Refusal>) -> u8
    ensures { result ≡ told answer }
{
    match answer {
        Ok(_) => 0,
        Err(refusal) => u8::from(refusal),
    }
}

// A test that has to hold, and the reason where it does not.
pub fn demand(holds: bool, refusal: Refusal) -> Result<(), Refusal>
    ensures { told result ≡ cond holds 0 (number refusal) }
{
    if holds { Ok(()) } else { Err(refusal) }
}

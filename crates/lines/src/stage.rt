// The stages of an image that comes in pieces, which a report and a repair go by.
ghost use Rattle.std.specs.Prelude.{◌≡◌};
ghost use Rattle.lines.specs.Stages.{stage_of};

// In the header, in the stripes, behind the last one, or over.
#[derive(Clone, Copy, Debug, PartialEq, Eq)]
pub enum Stage {
    Header,
    Stripes,
    Behind,
    Over,
}

// By a state's number; one that is no stage's is taken as over.
impl From<u8> for Stage {
    ghost from_gives = { λ number stage. stage ≡ stage_of number };

    fn from(number: u8) -> Stage {
        match number {
            0 => Stage::Header,
            1 => Stage::Stripes,
            2 => Stage::Behind,
            _ => Stage::Over,
        }
    }
}

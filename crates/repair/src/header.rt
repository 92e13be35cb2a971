// The header of an image that is to be repaired.
ghost use Rattle.std.specs.Prelude.{◌≡◌};
ghost use Rattle.refusal.specs.Refusals.{told};
ghost use Rattle.repair.specs.Repairs.{repair_refusal};

use refusal::Refusal;

// The method of large blocks, which are not repaired.
const LARGE: u8 = 3;

// Refuses a header, or as much of it as came, as a report does, and large blocks: before a row length that does not fit.
pub fn check_header(header: &[u8]) -> Result<(), Refusal>
    ensures { told result ≡ repair_refusal header.now }
{
    let checked = lines::check_header(header);
    if lines::array_in(header).method != LARGE {
        return checked;
    }
    match checked {
        Ok(()) => Err(Refusal::Method),
        Err(refusal) => match refusal {
            Refusal::Row => Err(Refusal::Method),
            _ => Err(refusal),
        },
    }
}

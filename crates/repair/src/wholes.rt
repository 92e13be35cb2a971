// What was held is whole, a header or a stripe: it goes on to the image.
ghost use Rattle.std.specs.Prelude.{◌≡◌, ◌<◌};
ghost use Rattle.repair.specs.Feeding.{Does, Room, header_whole, next_stripe, stripe_whole};

use crate::header::check_header;
use crate::{Fed, Repair};
use lines::Stage;

impl Repair {
    // The header is whole: it goes on to the image, and the first stripe comes; or it is refused.
    pub(crate) fn header_whole(
        self,
        used: usize,
        held: &[u8],
        image: &mut [u8],
        list: &mut [u8],
    ) -> Fed
        requires { Room self.have held.now image.old list.old }
        ensures { Does (header_whole used self held.now) result held.now image.old image.new list.old list.new }
    {
        let have = self.have;
        let header = self.bytes(held);
        match check_header(header) {
            Ok(()) => {
                copy::put(image, 0, header);
                Fed {
                    state: Repair::entering(Stage::Stripes, lines::array_in(header), 0),
                    used,
                    written: have,
                    listed: 0,
                }
            }
            Err(refusal) => self.refused(used, refusal, list),
        }
    }

    // The state behind a stripe: before the next one, or behind the last.
    fn next_stripe(self) -> Repair
        requires { self.stripe < self.array.stripes }
        ensures { result ≡ next_stripe self }
    {
        let next = self.stripe + 1;
        let stage = if next < self.array.stripes {
            Stage::Stripes
        } else {
            Stage::Behind
        };
        Repair::entering(stage, self.array, next)
    }

    // The stripe is whole: it is mended, and goes on to the image.
    pub(crate) fn stripe_whole(
        self,
        used: usize,
        held: &mut [u8],
        image: &mut [u8],
        list: &mut [u8],
    ) -> Fed
        requires is_stripe { self.stripe < self.array.stripes }
        requires room { Room self.have held.old image.old list.old }
        ensures { Does (stripe_whole used self held.old) result held.new image.old image.new list.old list.new }
    {
        let listed = mend::mend(self.array, self.stripe, &mut held[..self.have], list);
        copy::put(image, 0, &held[..self.have]);
        Fed {
            state: self.next_stripe(),
            used,
            written: self.have,
            listed,
        }
    }
}

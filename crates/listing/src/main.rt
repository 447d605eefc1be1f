// The listing program (rules P1 to P6): lists the telegrams of standard input. It reads, calls a turn of the listing, and writes.
#![tactic(auto)]

ghost use Rattle.std.specs.Prelude.{◌≡◌};
ghost use Rattle.pieces.specs.declared.wants.Wants.TheVariants.{End};

use captures::lister::Lister;
use captures::turn::list;
use pieces::wants::Wants;
use records::refusals::Refusal;
use stdio::input::called_alone;
use stdio::turns::{Words, Work, run};

#[derive(Clone, Copy)]
struct Listing(Lister);

impl Work for Listing {
    ghost is_over = { λ s. s.0.wants ≡ End };

    fn wants(&self) -> Wants {
        self.0.wants
    }

    fn held(&self) -> usize {
        self.0.held
    }

    fn turn(&mut self, buf: &mut [u8], got: usize, out: &mut [u8]) -> Result<usize, Refusal> {
        let step = list(self.0, buf, got, out);
        self.0 = step.lister;
        step.answer
    }
}

fn main(rt: HostRuntime) {
    if !called_alone(rt, b"usage: listing < CAPTURE\n") {
        return;
    }
    let mut buf = [0u8; 131072];
    let mut out = [0u8; 65536];
    let words = Words {
        reading: b"listing: reading",
        writing: b"listing: writing",
        refused: b"listing: refused\n",
    };
    run(rt, &mut Listing(Lister::start()), &mut buf, &mut out, words);
}

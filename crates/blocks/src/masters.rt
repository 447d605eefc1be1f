// A master as a block: line, good, number, count, T0's and T2's start, operation, and its record (rules F7, F8).
ghost use Rattle.std.specs.Prelude.{◌≡◌};
ghost use Rattle.master.specs.State.{unstarted};
ghost use Rattle.blocks.specs.Masters.{master_length, master_bytes, master_at, load_of};

use crate::heads::{flag_byte, put_head};
use crate::layout;
use crate::layout::{Loaded, Put, Take};
use crate::record::RECORD_LENGTH;
use characters::slices::{byte_at, part};
use clock::counters::ToSend;
use master::state::Master;
use records::records::Record;
use text::fours::{four_said, put_four};
use text::putting::put_byte;

// All bytes of a master's block.
pub const MASTER_LENGTH: usize = 13 + RECORD_LENGTH;

impl Put for Master {
    const LENGTH: usize = MASTER_LENGTH;

    ghost LENGTH = { master_length };

    ghost bytes_of = { master_bytes };

    fn put(self, out: &mut [u8], at: usize) -> usize {
        let a = put_head(out, at, self.line, self.good, self.number.0, self.count);
        let b = put_four(out, a, self.t0);
        let c = put_four(out, b, self.t2);
        let d = put_byte(out, c, flag_byte(self.operation));
        self.rec.put(out, d)
    }
}

impl Take for Master {
    ghost made_of = { master_at };

    #[tactic(auto, unfolding(crate::specs::Masters::master_at))]
    fn take(bytes: &[u8]) -> Master {
        Master {
            line: byte_at(bytes, 0),
            good: byte_at(bytes, 1) == 1,
            number: ToSend(byte_at(bytes, 2)),
            count: byte_at(bytes, 3),
            rec: Record::take(part(bytes, 13, RECORD_LENGTH)),
            t0: four_said(part(bytes, 4, 4)),
            t2: four_said(part(bytes, 8, 4)),
            operation: byte_at(bytes, 12) == 1,
        }
    }
}

// The unstarted master of line 0, which every call refuses 15.
impl Loaded for Master {
    ghost blank = { unstarted };

    fn blank() -> Master {
        Master::start(0, 0).master
    }
}

// The master of a block; the unstarted one where the bytes are no master's.
// No Option: load_of promises the unstarted master (docs/PROMISES.md, masters::load).
pub fn load(block: &[u8]) -> Master
    ensures { result ≡ load_of block.now }
{
    layout::load::<Master, MASTER_LENGTH>(block)
}

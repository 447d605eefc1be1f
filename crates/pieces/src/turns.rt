// What refuses a turn of a work in pieces.
ghost use Rattle.std.specs.Prelude.{◌≡◌};
ghost use Rattle.records.specs.Answers.{fault_of};
ghost use Rattle.pieces.specs.Turns.{room_fault};

use records::refusals::Refusal;

// What a work holds in front of its buffer, whether its state is in its ranges, and the shortest buffer and output that a turn takes.
#[derive(Clone, Copy)]
pub struct Needs {
    pub fits: bool,
    pub held: usize,
    pub buffer: usize,
    pub output: usize,
}

impl Needs {
    // What refuses a turn, given the lengths of its buffer, of what was got and of its output: 15 where the state is out of its ranges or the bytes held and got
    // are not in the buffer; then 14 where output or buffer is too short.
    #[tactic(auto, unfolding(crate::specs::Turns::room_fault))]
    pub fn check(self, len: usize, got: usize, room: usize) -> Result<(), Refusal>
        ensures { fault_of result ≡ room_fault self.fits self.held self.buffer self.output len got room }
    {
        if !self.fits || len < self.held || len - self.held < got {
            return Err(Refusal::State);
        }
        if room < self.output || len < self.buffer {
            return Err(Refusal::NoRoom);
        }
        Ok(())
    }
}

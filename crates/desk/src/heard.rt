// What a hearing of the desk answers (rules D4 to D12).
use crate::replying::Source;
use records::refusals::Refusal;

// What hearing a frame answers, where the call does not refuse. The flag says that this call noted the line lost; the last number is that of the bytes sent.
#[derive(Clone, Copy)]
pub enum Heard {
    // nothing is sent; the reading's refusal
    Silent(bool, Refusal),
    // N with 1
    Fault(bool, usize),
    // the stored answer again
    Repeat(usize),
    Handled(bool, Source, usize),
}

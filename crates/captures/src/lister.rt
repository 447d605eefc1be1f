// The state of a listing between two turns, what refuses a turn, and what a turn does (rules P1 to P5, P10).
ghost use Rattle.std.specs.Prelude.{◌≡◌};
ghost use Rattle.records.specs.Answers.{fault_of};
ghost use Rattle.captures.specs.Lister.{at_first, place_fits, list_fault, line_for, line_task, read_task, task_for, ended};

use crate::listing::LINE_ROOM;
use characters::marks::LONGEST;
use characters::slices::byte_at;
use forms::lines::is_line;
use pieces::line::line_named;
use pieces::turns::Needs;
use pieces::wants::Wants;
use records::refusals::Refusal;

// Between two turns: the line, 0 before its digit is known; how many bytes are held in front of the buffer; where among them the listing goes on; the next
// telegram's ordinal; the offset of the first byte held.
// Line 0 is none, here and below, and base 2^64 - 1 is -1: so at_first and place_fits have them (docs/PROMISES.md names Lister::start).
// held and next are places of the caller's buffer: there is no heap, and each turn lends it.
// recordings' Replayer has four of the fields: a struct of them is no shorter, since the clauses of both name them one by one.
#[derive(Clone, Copy)]
pub struct Lister {
    pub line: u8,
    pub held: usize,
    pub next: usize,
    pub ordinal: u64,
    pub base: u64,
    pub wants: Wants,
}

// What a turn does: it lists on a line, says that no line is named, or has nothing left to list.
// Three outcomes, so no Option of a line; an enum and no closure, since the clauses name it (task_for).
#[derive(Clone, Copy)]
pub enum Task {
    Lists(u8),
    Unnamed,
    Over,
}

// What a turn does on a line.
#[tactic(auto, unfolding(crate::specs::Lister::line_task))]
fn line_task(line: u8) -> Task
    ensures { result ≡ line_task line }
{
    if line == 0 {
        return Task::Unnamed;
    }
    Task::Lists(line)
}

impl Lister {
    // Ordinals go from 1; the digit stands before offset 0, and the listing goes on behind it.
    pub fn start() -> Self
        ensures { result ≡ at_first }
    {
        Lister {
            line: 0,
            held: 0,
            next: 1,
            ordinal: 1,
            base: u64::MAX,
            wants: Wants::Read,
        }
    }

    // Whether line and place are in their ranges: before the digit is known nothing is held, and then the listing goes on among the bytes held.
    #[tactic(auto, unfolding(crate::specs::Lister::place_fits))]
    fn place_fits(self) -> bool
        ensures { result ≡ place_fits self }
    {
        if self.line == 0 {
            return self.held == 0 && self.next == 1;
        }
        is_line(self.line) && self.next <= self.held
    }

    // What refuses a turn: 15, then 14.
    pub(crate) fn list_check(self, len: usize, got: usize, room: usize) -> Result<(), Refusal>
        ensures { fault_of result ≡ list_fault self len got room }
    {
        let needs = Needs {
            fits: self.place_fits(),
            held: self.held,
            buffer: LONGEST,
            output: LINE_ROOM,
        };
        needs.check(len, got, room)
    }

    // The line: the state's, or the one that the first byte names.
    #[tactic(auto, unfolding(crate::specs::Lister::line_for))]
    pub(crate) fn line_for(self, s: &[u8]) -> u8
        ensures { result ≡ line_for self s.now }
    {
        if self.line == 0 {
            return line_named(byte_at(s, 0));
        }
        self.line
    }

    // What a turn does behind a read: a read of nothing ends the listing.
    #[tactic(auto, unfolding(crate::specs::Lister::read_task))]
    fn read_task(self, got: usize, s: &[u8]) -> Task
        ensures { result ≡ read_task self got s.now }
    {
        if got != 0 {
            return line_task(self.line_for(s));
        }
        if self.line == 0 {
            return Task::Unnamed;
        }
        Task::Over
    }

    // What a turn does, with so many bytes got and these at hand.
    pub(crate) fn task(self, got: usize, s: &[u8]) -> Task
        ensures { result ≡ task_for self.wants self got s.now }
    {
        match self.wants {
            Wants::Read => self.read_task(got, s),
            Wants::Again => line_task(self.line_for(s)),
            Wants::End => Task::Over,
        }
    }

    // All is said.
    // recordings has it of its own state: one field's update each.
    pub(crate) fn ended(self) -> Lister
        ensures { result ≡ ended self }
    {
        Lister {
            wants: Wants::End,
            ..self
        }
    }
}

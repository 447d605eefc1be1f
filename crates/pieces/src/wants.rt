// What work in pieces wants next (rules P5, Q14).

// Bytes read behind those held, none where the input has ended; the next turn, the output being full; or nothing more.
#[derive(Clone, Copy)]
pub enum Wants {
    Read,
    Again,
    End,
}

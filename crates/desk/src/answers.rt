// What the desk's calls that hear nothing answer (rules D2 to D4).
use records::refusals::Refusal;

// A call that hears nothing is done, and says whether it noted the line lost; or it refuses.
pub type Outcome = Result<bool, Refusal>;

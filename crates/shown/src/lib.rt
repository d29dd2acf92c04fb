// How a station stands, and its status in the line that `show` hands back.
// Relies on the model's declared types and texts and on the writer of lines; the calls that tell how stations stand and the
// writer of a tape line rely on it.
#![tactic(auto)]

pub mod standing;
pub mod status;

// One step, and a run of steps, on a lent board: refusals in checking order, then one register access for each.
// `step` and `run` are public calls. The run of a line's items, a round and a step taped share the steps of a sound board
// (`repeated`, `sound_step`), and a step taped asks first whether a station goes on (`going`): these have a `requires`.
// Relies on the test of a board, the codec and the stepper of a lent record; the public calls, the run of items, the round
// and a step taped rely on it.
#![tactic(auto)]

pub mod going;
pub mod repeated;
pub mod running;
pub mod single;
pub mod sound_step;

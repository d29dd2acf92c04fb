// Plays a run sheet: reads standard input whole, and writes each answer as soon as it is known.
// Relies on the answers of a sheet for everything but reading and writing.
#![tactic(auto)]

use answers::next_answer;
use input::read_all;

// The buffer holds one byte more than the longest sheet that is played. A failed read or write ends the program with no word.
fn main(rt: HostRuntime) {
    let mut sheet = [0u8; 32769];
    let Ok(len) = read_all(&mut rt.stdin(), &mut sheet) else {
        return;
    };
    let mut memory = [0u8; 16904];
    let mut at = 0;
    let mut laid = 0;
    while at < len {
        let answer = next_answer(&sheet[..len], at, laid, &mut memory);
        if rt.write_all(answer.line.as_slice()).is_err() {
            return;
        }
        laid = answer.laid;
        at = answer.next;
    }
}

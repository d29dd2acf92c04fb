// Writes the tape of a run sheet: reads standard input whole, and writes the tape part by part.
// Relies on the tape of a sheet for everything but reading and writing.
#![tactic(auto)]

use answers::next_answer;
use input::read_all;
use taped_sheet::next_part;

// The buffer for the sheet holds one byte more than the longest that is played; a longer one is refused as the player refuses it.
// A failed read or write ends the program with no word.
fn main(rt: HostRuntime) {
    let mut sheet = [0u8; 32769];
    let Ok(len) = read_all(&mut rt.stdin(), &mut sheet) else {
        return;
    };
    let mut memory = [0u8; 16904];
    if 32768 < len {
        let answer = next_answer(&sheet[..len], 0, 0, &mut memory);
        let _ = rt.write_all(answer.line.as_slice());
        return;
    }
    let mut kept = [0u8; 16904];
    let mut out = [0u8; 57344];
    let mut at = 0;
    let mut done = 0;
    let mut laid = 0;
    while at < len {
        let part = next_part(
            &sheet[..len],
            at,
            done,
            laid,
            &mut memory,
            &mut kept,
            &mut out,
        );
        let count = part.len;
        if rt.write_all(&out[..count]).is_err() {
            return;
        }
        at = part.next;
        done = part.done;
        laid = part.laid;
    }
}

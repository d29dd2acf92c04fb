// The calls that hand back a line or a part of one, for C: a line goes to the front of a lent buffer.
// Relies on the calls, the lexer's word and the player; a station's firmware relies on it.
ghost use Rattle.std.specs.Prelude.{◌≡◌, length};
ghost use Rattle.model.specs.Show.{show};
ghost use Rattle.model.specs.Forms.{form_word};
ghost use Rattle.model.specs.Sheet.{play_line};
ghost use Rattle.capi.specs.LentLines.{in_room, playable, handed, shown_in, pack_show, pack_played, filled};
ghost use Rattle.packing.specs.Packing.{pack_word};

use packing::word_number;

// The numbers for a call that cannot be made: no other case gives them.
const NO_ROOM: u32 = 0xFFFFFFFF;

pub const NOT_PLAYED: u64 = 0xFFFFFFFFFFFFFFFF;

#[unsafe(no_mangle)]
pub extern "C" fn lufanelis_show(board: &[u8], line: &mut [u8]) -> u32
    ensures { (result ≡ in_room line.old (pack_show (show board.now)) 4294967295) × (line.new ≡ in_room line.old (shown_in (show board.now) line.old) line.old) }
{
    if line.len() < 512 {
        return NO_ROOM;
    }
    match calls::show(board) {
        Ok(shown) => {
            line[..512].copy_from_slice(&shown.bytes());
            shown.len() as u32 * 65536
        }
        // The lent line stays as it was.
        Err(refusal) => u32::from(u8::from(refusal)),
    }
}

#[unsafe(no_mangle)]
pub extern "C" fn lufanelis_word(line: &[u8]) -> u64
    ensures { result ≡ pack_word (length (form_word line.now)) }
{
    let word = lexer::word::form_word(line);
    word_number(word.len())
}

#[unsafe(no_mangle)]
pub extern "C" fn lufanelis_play_line(
    line: &[u8],
    laid: usize,
    memory: &mut [u8],
    printed: &mut [u8],
) -> u64
    ensures { (result ≡ playable laid printed.old (pack_played (play_line laid memory.old line.now)) 18446744073709551615)
        × (memory.new ≡ playable laid printed.old (play_line laid memory.old line.now).memory memory.old)
        × (printed.new ≡ playable laid printed.old (handed (filled (play_line laid memory.old line.now).printed) printed.old) printed.old) }
{
    if printed.len() < 512 {
        return NOT_PLAYED;
    }
    if 4294967295 < laid {
        return NOT_PLAYED;
    }
    let played = player::line::play_line(line, laid, memory);
    printed[..512].copy_from_slice(&played.line.bytes());
    played.line.len() as u64 + played.laid as u64 * 65536
}

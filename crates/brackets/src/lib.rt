// The brackets of a line: how deep they go, the one that ends a line, and the one that begins pairs.
// Relies on the model's forms alone; the reader of a line relies on it, and the reader of a tape line on `closes`.
#![tactic(auto)]

ghost use Rattle.std.specs.Prelude.{◌≡◌, ◌≤◌, length, drop, eqb};
ghost use Rattle.model.specs.Bytes.{byte};
ghost use Rattle.model.specs.Forms.{too_deep, same};
ghost use Rattle.model.specs.Show.{text};

// Whether opening brackets exceed closing ones by more than 8 at some byte.
pub fn too_deep(line: &[u8]) -> bool
    requires { length line.now ≤ 255 }
    ensures { result ≡ too_deep 0 0 line.now }
{
    let mut opened: u32 = 0;
    let mut closed: u32 = 0;
    for &byte in line {
        if byte == b'(' {
            opened += 1;
        }
        if byte == b')' {
            closed += 1;
        }
        if closed + 8 < opened {
            return true;
        }
    }
    false
}

// Whether the line ends with a bracket at `at`.
#[tactic(auto, unfolding(model::specs::Forms::same, model::specs::Show::text, model::specs::Show::text_from))]
pub fn closes(line: &[u8], at: usize) -> bool
    requires { at ≤ length line.now }
    ensures { result ≡ same (drop at line.now) (text ")") }
{
    &line[at..] == b")".as_slice()
}

// Whether a bracket stands behind the byte at `at`, as it does where pairs follow the word.
pub fn opens_pair(line: &[u8], at: usize) -> bool
    ensures { result ≡ eqb (byte (drop at line.now) 1) 40 }
{
    matches!(line.get(at..), Some([_, b'(', ..]))
}

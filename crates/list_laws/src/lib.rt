// A list in brackets that stands in a line: what its reader hands back, and the laws of lists that are read in a loop or walked
// along once more, whatever kind of thing they list; nothing runs here.
// Relies on the model's lists and the lexer; the readers of items, rounds and pairs and those who go along them rely on it.
#![tactic(auto)]

// How many things a list has, and how many stations a board must have for them: 255 for those that no board takes.
#[derive(Clone, Copy)]
pub struct Listed {
    pub count: usize,
    pub needs: u8,
}

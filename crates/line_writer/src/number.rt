// Numbers as decimal digits: no plus, no leading zero, no −0.
// Relies on the line; statuses, the lines of a run sheet and those of a tape rely on it.
ghost use Rattle.std.specs.Prelude.{◌≡◌, ◌+◌, ◌≤◌, ◌++◌, length};
ghost use Rattle.model.specs.Show.{decimal, signed};

use crate::line::Line;

impl Line {
    // The digits before the last one are a number's too.
    #[tactic(auto, using(crate::proofs::Numbers::digits, model::proofs::Basics::Decimals::decimal_one))]
    pub fn push_decimal(&mut self, x: u32)
        requires { length self.old + length (decimal x) ≤ 512 }
        ensures { self.new ≡ self.old ++ decimal x }
    {
        if 10 <= x {
            self.push_decimal(x / 10);
        }
        self.push(b'0' + (x % 10) as u8);
    }

    #[tactic(auto, using(crate::proofs::Numbers::signs))]
    pub fn push_figure(&mut self, v: i32)
        requires { length self.old + length (signed v) ≤ 512 }
        ensures { self.new ≡ self.old ++ signed v }
    {
        if v < 0 {
            self.push(b'-');
        }
        self.push_decimal(v.unsigned_abs());
    }
}

// Lines and columns of a text.
ghost use Rattle.std.specs.Prelude.{◌≡◌, ◌≤◌, ◌<◌, ◌^◌, length};
ghost use Rattle.qs_base.specs.Positions.{column_at, line_at};

/// A place in a text: its line and its column in bytes, both from 1. Each byte 0x0A ends a line.
#[derive(Clone, Copy, Debug)]
pub struct Pos {
    /// The line, from 1.
    pub line: u32,
    /// The column in bytes, from 1.
    pub column: u32,
}

/// The place of the byte `at`, or of the end where `at` is the text's length.
#[tactic(auto, using(crate::proofs::PositionLaws::column_starts, crate::proofs::PositionLaws::column_goes_on, crate::proofs::PositionLaws::line_ends, crate::proofs::PositionLaws::line_goes_on))]
pub fn position(text: &[u8], at: usize) -> Pos
    requires within { at ≤ length text.now }
    requires short { length text.now < 2 ^ 31 }
    ensures line { result.line ≡ line_at text.now at }
    ensures column { result.column ≡ column_at text.now at }
{
    let mut pos = Pos { line: 1, column: 1 };
    for byte in text.split_at(at).0 {
        if *byte == b'\n' {
            pos.line += 1;
            pos.column = 1;
        } else {
            pos.column += 1;
        }
    }
    pos
}

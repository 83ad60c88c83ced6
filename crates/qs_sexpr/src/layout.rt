// Where lines end in what is written.
ghost use Rattle.std.specs.Prelude.{◌≡◌};
ghost use Rattle.qs_sexpr.specs.Layout.{before, begun, behind, deeper, ending, inside};
ghost use Rattle.qs_sexpr.specs.Gaps.{gap_view};
ghost use Rattle.qs_sexpr.specs.Marks.{line_end};

/// How a list that is open goes on.
#[derive(Clone, Copy)]
pub enum Layer {
    /// No list is open.
    Top,
    /// The list stands on one line; whether its next part is its first.
    OnLine(bool),
    /// The list has begun at this column, and its first part is next.
    Head(usize),
    /// The list has begun at this column, and its second part is next; so many columns are left of
    /// the line.
    Second(usize, usize),
    /// The list has begun at this column, and its other parts stand on lines of their own.
    Others(usize),
}

/// What stands before a part of a list, or before its `)`.
#[derive(Clone, Copy)]
pub enum Gap {
    /// Nothing.
    Nothing,
    /// A blank.
    Blank,
    /// The end of the line, and so many blanks.
    NewLine(usize),
}

/// How many columns a line has.
const LINE: usize = 100;

/// How far right a list begins whose parts still stand two columns further right.
const DEEPEST_COLUMN: usize = 58;

/// The column of the parts of a list at this column.
fn deeper(column: usize) -> usize
    ensures { result ≡ deeper column }
{
    column.min(DEEPEST_COLUMN) + 2
}

fn begun(column: usize, size: usize) -> Layer
    ensures { result ≡ begun column size }
{
    if size <= LINE.saturating_sub(column) {
        Layer::OnLine(true)
    } else {
        Layer::Head(column)
    }
}

impl Layer {
    /// What stands before the next part, which has so many bytes.
    pub fn before(self, is_atom: bool, size: usize) -> Gap
        ensures { gap_view result ≡ before self is_atom size }
    {
        match self {
            Layer::Top => Gap::Nothing,
            Layer::OnLine(is_first) => { if is_first { Gap::Nothing } else { Gap::Blank } }
            Layer::Head(column) => {
                if is_atom {
                    Gap::Nothing
                } else {
                    Gap::NewLine(deeper(column))
                }
            }
            Layer::Second(column, room) => {
                if is_atom && size < room {
                    Gap::Blank
                } else {
                    Gap::NewLine(deeper(column))
                }
            }
            Layer::Others(column) => Gap::NewLine(deeper(column)),
        }
    }

    /// How the list goes on behind its next part.
    pub fn behind(self, is_atom: bool, size: usize) -> Layer
        ensures { result ≡ behind self is_atom size }
    {
        match self {
            Layer::Top => Layer::Top,
            Layer::OnLine(_) => Layer::OnLine(false),
            Layer::Head(column) => {
                if is_atom {
                    let room = LINE.saturating_sub(column).saturating_sub(1);
                    Layer::Second(column, room.saturating_sub(size))
                } else {
                    Layer::Others(column)
                }
            }
            Layer::Second(column, _) => Layer::Others(column),
            Layer::Others(column) => Layer::Others(column),
        }
    }

    /// How the next part begins, if it is a list.
    pub fn inside(self, size: usize) -> Layer
        ensures { result ≡ inside self size }
    {
        match self {
            Layer::Top => begun(0, size),
            Layer::OnLine(_) => Layer::OnLine(true),
            Layer::Head(column) => begun(deeper(column), size),
            Layer::Second(column, _) => begun(deeper(column), size),
            Layer::Others(column) => begun(deeper(column), size),
        }
    }

    /// What stands before the `)`.
    pub fn ending(self) -> Gap
        ensures { gap_view result ≡ ending self }
    {
        match self {
            Layer::Top => Gap::Nothing,
            Layer::OnLine(_) => Gap::Nothing,
            Layer::Head(column) => Gap::NewLine(column),
            Layer::Second(column, _) => Gap::NewLine(column),
            Layer::Others(column) => Gap::NewLine(column),
        }
    }

    /// What stands behind a part: a form that stands in no list ends its line.
    pub fn line_end(self) -> Gap
        ensures { gap_view result ≡ line_end self }
    {
        match self {
            Layer::Top => Gap::NewLine(0),
            Layer::OnLine(_) => Gap::Nothing,
            Layer::Head(_) => Gap::Nothing,
            Layer::Second(_, _) => Gap::Nothing,
            Layer::Others(_) => Gap::Nothing,
        }
    }
}

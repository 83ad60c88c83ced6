// Where a file lies in a list of bytes: its name, and behind it its content.

/// Where a file lies, in bytes from the beginning of the list: its name from `name` up to before
/// `content`, its content from there up to before `end`.
#[derive(Clone, Copy)]
pub struct Span {
    pub name: usize,
    pub content: usize,
    pub end: usize,
}

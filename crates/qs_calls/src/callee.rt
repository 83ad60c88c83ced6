// What can be called.

use qs_base::FnId;

/// What is called: a function with a body, or one that the environment gives (C11 7.21.7.6, 7.21.7.8).
#[derive(Clone, Copy)]
pub enum Callee {
    /// a function with a body
    Function(FnId),
    /// `int putchar(int c)`
    PutChar,
    /// `int getchar(void)`
    GetChar,
}

// What names stand for (C11 6.2.1, 6.2.3).

/// What a name stands for, apart from its type: a declaration, by the number of its node.
#[derive(Clone, Copy)]
pub enum Referent {
    /// A variable or parameter of a function.
    Local(u32),
    /// A variable at file scope.
    File(u32),
    /// A function of the unit, by its latest header.
    Function(u32),
    /// `putchar`, where it is declared.
    PutChar,
    /// `getchar`, where it is declared.
    GetChar,
}

//! A call of a stack.

/// A call of a stack, as a debugger prints it. What isn't known is empty, or 0.
#[derive(Drop)]
pub struct Call {
    /// The function.
    pub name: Vec<u8>,
    /// The executable or the shared library that the function is in: its path, or a name in brackets.
    pub binary: Vec<u8>,
    /// Whether that file was removed or replaced while it ran.
    pub is_deleted: bool,
    /// Where the call stands in that file: hexadecimal digits.
    pub offset: Vec<u8>,
    /// The source file.
    pub file: Vec<u8>,
    /// The line there, from 1.
    pub line: u32,
}

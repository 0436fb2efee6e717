//! Logical lines.
use syn_base::List;

/// A line with the lines that continue it.
#[derive(Drop)]
pub struct LogicalLine {
    /// The number of its first physical line, from 1.
    pub number: usize,
    /// Its characters, without line breaks.
    pub text: List<char>,
}

/// What the bytes of a file are.
#[derive(Drop)]
pub enum LogicalLines {
    Lines(List<LogicalLine>),
    /// The physical line of the first byte that isn't UTF-8, from 1.
    BadUtf8 { line: usize },
}

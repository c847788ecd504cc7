// Reading and printing, which no contract states.

pub mod line;
pub mod printer;
pub mod show;
pub mod tell;
pub mod words;

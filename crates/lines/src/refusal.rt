// A fault, with the number of its line in the section, from 1.
#[derive(Clone, Copy, PartialEq, Eq, Debug)]
pub struct LineRefusal<F> {
    pub fault: F,
    pub line: usize,
}

// What a row keeps of a message: its location, its span and its arrival number.
use lines::span::Span;

#[derive(Clone, Copy)]
pub struct Entry {
    pub location: u8,
    pub span: Span,
    pub number: u8,
}

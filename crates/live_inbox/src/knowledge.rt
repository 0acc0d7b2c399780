use std::collections::LinkedList;

/// A value in an inbox, with the number of the port that put it.
#[derive(Drop)]
pub struct Sent<T> {
    pub port: usize,
    pub value: T,
}

/// What a port had put when the mouth took it back. Contracts alone speak of it: no value is made.
pub struct Returned<T> {
    pub port: usize,
    pub put: LinkedList<T>,
}

/// What a port or the mouth knows. Contracts alone speak of it: no value of it is made.
pub struct Knowledge<T> {
    pub puts: bool,
    pub takes: bool,
    pub port: usize,
    pub ports: usize,
    pub put: LinkedList<T>,
    pub dealt: usize,
    pub taken: LinkedList<Sent<T>>,
    pub waiting: LinkedList<Sent<T>>,
    pub returned: LinkedList<Returned<T>>,
}

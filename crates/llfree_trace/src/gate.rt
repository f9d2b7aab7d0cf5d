//! What is called round each request of a run on threads.

/// Is called by each thread round each of its requests, with the core and the number of the record.
pub trait Gate: Sync {
    fn before(&self, core: u32, line: u32);

    fn after(&self, core: u32, line: u32);
}

/// A gate that does nothing.
#[derive(Clone, Copy)]
pub struct OpenGate;

impl Gate for OpenGate {
    fn before(&self, _core: u32, _line: u32) {}

    fn after(&self, _core: u32, _line: u32) {}
}

/// Notified of each request before and after it is answered. A test holds clients at it.
pub trait Gate {
    fn before(&self, client: u32, line: u32);

    fn after(&self, client: u32, line: u32);
}

/// Lets every request pass.
#[derive(Clone, Copy, Debug, PartialEq, Eq)]
pub struct OpenGate;

impl Gate for OpenGate {
    fn before(&self, _client: u32, _line: u32) {}

    fn after(&self, _client: u32, _line: u32) {}
}

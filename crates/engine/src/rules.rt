// What cycles run by.

// The window of a cycle, in units, and the policy.
#[derive(Drop)]
pub struct Rules<'a, P> {
    pub window: u8,
    pub policy: &'a P,
}

// A message type as data, and the demands for any of them. This crate has no code but for what reading answers: what is right stands
// in specs/, and proofs/ proves it.
#![tactic(auto)]

// What the desk gets back of a message: 0 and the record that is held of it, or a number and a line with the blank record beside them.
#[derive(Clone, Copy)]
pub struct Reading<H> {
    pub number: u64,
    pub line: usize,
    pub held: H,
}

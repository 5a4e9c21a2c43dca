// Whether the fields of an answer are in form.
//
// What is right stands in answer_values' specs/Writable; specs/Judging has the numbers that a record shows by itself.
#![tactic(auto)]

pub mod form;

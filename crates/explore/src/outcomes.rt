//! What worlds come to in the end, and which of them to the same.
pub(crate) mod end;
pub(crate) mod same;

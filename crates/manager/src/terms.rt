// What a replica's work goes by. Page and row stay two `&mut` beside it: in a struct of both (tried) each contract would also
// have to say that the references are still the same.
use super::need::Need;
use quorum::Replica;

#[derive_where(Clone, Copy)]
pub(crate) struct Terms<'a, R> {
    pub rule: &'a R,
    pub need: Need,
    pub replica: Replica,
}

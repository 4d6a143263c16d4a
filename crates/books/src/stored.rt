use crate::frame::Frame;
use crate::store::Store;
use rules::Tested;
use std::marker::PhantomData;

/// A book for the rule `R` that keeps its rows in the store `S`.
#[derive(Drop)]
pub struct Stored<R: Tested, S: Store> {
    pub(crate) frame: Frame,
    pub(crate) rows: S,
    pub(crate) rule: PhantomData<R>,
    // Between bars, since the checker must see that such a fact has one proof at most.
    ghost keeps: { ∥ S.keeps frame rows ∥₁ },
}

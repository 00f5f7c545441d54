//! What the workers of an engine share.
use card_scaled::CardTable;
use cost_model::CostModel;
use memo_table::Memo;

// It does not change while an engine runs. The memo does so only by its own steps.
#[derive(Drop)]
pub(crate) struct Shared<M: CostModel> {
    pub(crate) memo: Memo<M>,
    pub(crate) model: M,
    pub(crate) cards: CardTable,
    pub(crate) workers: u32,
}

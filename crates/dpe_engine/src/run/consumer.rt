//! What processes buffers.
ghost use Rattle.std.specs.Prelude.{◌≡◌, ◌+◌, ◌<◌, List, length};
ghost use Rattle.dpe_base.specs.declared.pair.Pair.{Pair};
ghost use Rattle.reorder_buffer.specs.Groups.{groups_below};
ghost use Rattle.dpe_engine.specs.Working.{IsMemoOfQuery, IsReady, HasWorked};
ghost use Rattle.dpe_engine.specs.Running.Between.{HasFreeCrew, IsAtGroup, MayWorkGroup, IsSameBuffer};
ghost use Rattle.dpe_engine.specs.Running.Buffers.{MayWorkBuffer, HasWorkedBuffer};

use crate::gate::Gate;
use crate::run::shared::Shared;
use crate::run::threads::threads_for_group;
use crate::whole_round::{close_round, open_round};
use crate::worker::work;
use cost_model::CostModel;
use dpe_base::WORKERS_MAX;
use memo_table::MemoSeat;
use reorder_buffer::{Buffer, SIZES};
use std::thread::{Threads, for_each_mut};

/// The buffer whose pairs are processed, the main seat and the room for the crew, and how much has been processed. It is
/// moved to the thread that processes the buffer, and back.
#[derive(Drop)]
pub(crate) struct Consumer<M: CostModel> {
    pub(crate) full: Buffer,
    pub(crate) seat: MemoSeat<M>,
    pub(crate) crew: Vec<MemoSeat<M>>,
    // How many pairs, buffers and rounds are done.
    pub(crate) pairs: u64,
    pub(crate) buffers: u64,
    pub(crate) rounds: u64,
}

impl<M: CostModel> Consumer<M> {
    // Processes the group of one size, if it has a pair, after those of smaller sizes.
    fn work_group<G: Gate, R: Threads + Sync>(
        &mut self,
        rt: &R,
        shared: &Shared<M>,
        gate: &G,
        size: u32,
    )
        requires size { size < SIZES }
        requires may { MayWorkGroup M.KIND shared.now size self.old }
        ensures at { (later : List Pair) → IsAtGroup M.KIND shared.now size self.old later
            → IsAtGroup M.KIND shared.now (size + 1) self.new later }
        ensures free { HasFreeCrew shared.now self.new }
        ensures counted { self.new.rounds + length (groups_below size self.old.full.pairs)
            ≡ self.old.rounds + length (groups_below (size + 1) self.old.full.pairs) }
        ensures same { IsSameBuffer self.old self.new }
    {
        if self.full.count(size) == 0 {
            return;
        }
        let threads = threads_for_group(shared.workers, self.rounds, &self.full, size);
        let group = self.full.group(size);
        let base = open_round(
            &shared.memo,
            &mut self.seat,
            &mut self.crew,
            shared.workers,
            group,
        );
        for_each_mut(
            rt,
            self.crew.as_mut_slice(),
            threads,
            &|i, seat: &mut MemoSeat<M>|
                requires { (i < WORKERS_MAX) × IsMemoOfQuery shared.now.memo shared.now.cards × IsReady M.KIND shared.now.memo base group.now seat.old }
                ensures { HasWorked M.KIND base group.entry.now seat.old seat.new }
            {
                work(
                    &shared.memo,
                    seat,
                    base,
                    group,
                    &shared.model,
                    &shared.cards,
                    gate,
                    i as u32,
                )
            },
        );
        close_round(&shared.memo, &mut self.seat, &mut self.crew);
        self.rounds += 1;
    }

    /// Processes the groups of the buffer by ascending size.
    pub(crate) fn work<G: Gate, R: Threads + Sync>(
        self,
        rt: &R,
        shared: &Shared<M>,
        gate: &G,
    ) -> Consumer<M>
        requires { MayWorkBuffer M.KIND shared.now self }
        ensures { HasWorkedBuffer M.KIND shared.now self result }
    {
        let mut consumer = self;
        'sizes: for size in 0..SIZES as u32 {
            consumer.work_group(rt, shared, gate, size);
        }
        let count = consumer.full.len() as u64;
        consumer.pairs += count;
        consumer.buffers += count.min(1);
        consumer
    }
}

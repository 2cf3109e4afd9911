//! The acts of a node on a wave.

ghost use Rattle.std.specs.Prelude.{◌≡◌, ◌<◌, ◌≤◌, ◌+◌, ◌^◌, IfOk, OnOk};
ghost use Rattle.rank_set.specs.Ranks.{size};
ghost use Rattle.overlay_core.specs.TreeReleases.{release_view};
ghost use Rattle.wave_resend.specs.Books.{IsIn, book_of};
ghost use Rattle.overlay_node.specs.Acting.{release_with};
ghost use Rattle.overlay_node.specs.Contexts.{FitsAt, IsNodeContext, StepsWaveAt, act_at, due_in};

use crate::context::NodeContext;
use crate::due::{due_for, ticks_in};
use crate::held::HeldWave;
use crate::sending::{send_dones, send_up};
use crate::work::WaveWork;
use overlay_core::{Kind, Release};
use prefix_tree::PrefixTree;
use rank_set::{RANK_LIMIT, RankSet};
use stat_plan::Act;
use std::alloc::{AllocError, Global};

// For the proof: a set has at most all ranks. Each release of a wave passes on a new rank, so its number is within
// that limit.
fn ranks_within_limit(set: &RankSet)
    ensures { size set.now ≤ RANK_LIMIT }
{
    // for the proof: the count of a set is at most the number of ranks
    let _ = set.count();
}

// The next release of a wave.
fn next_release<T: PrefixTree>(
    alloc: Global,
    context: &NodeContext<'_>,
    held: &HeldWave<T>,
    kind: Kind,
    tree: T,
) -> Result<Release<T>, AllocError>
    requires { held.now.release_count + 1 < 2 ^ 32 }
    ensures { IfOk result
        (λ r. release_view T.tree r ≡ release_with held.now kind (T.tree tree) context.now.kin.now.kin.lost) }
{
    let mut lost = Vec::new(alloc);
    lost.extend_from_slice(context.kin.lost())?;
    Ok(Release {
        stream: held.stream,
        wave: held.wave,
        number: held.release_count + 1,
        kind,
        tree,
        lost,
    })
}

impl<T: PrefixTree> WaveWork<T> {
    // Starts the timer of a wave.
    fn start_timer(&mut self, context: &NodeContext<'_>, held: &HeldWave<T>)
        requires known { IsIn held.now.stream held.now.wave self.old.book }
        requires fits { FitsAt context.now self.old.book held.now }
        requires due { due_in context.now held.now.stream (book_of self.old.book held.now.stream held.now.wave)
            ≡ Act.Arm }
        ensures { StepsWaveAt context.now (act_at context.now held.now.stream held.now.wave)
            held.now held.now self.old self.new }
    {
        context.plan.invariant();
        self.book.arm(held.stream, held.wave, ticks_in(context.plan, held.stream));
    }

    // Sends what has come in of a wave to the parent.
    fn pass_up(&mut self, context: &NodeContext<'_>, held: &HeldWave<T>) -> Result<(), AllocError>
        requires known { IsIn held.now.stream held.now.wave self.old.book }
        requires fits { FitsAt context.now self.old.book held.now }
        requires due { due_in context.now held.now.stream (book_of self.old.book held.now.stream held.now.wave)
            ≡ Act.Send }
        ensures { OnOk result (StepsWaveAt context.now (act_at context.now held.now.stream held.now.wave)
            held.now held.now self.old self.new) }
    {
        let Some(part) = &held.part else {
            unreachable!()
        };
        send_up(context, part, &mut self.effects.sends)?;
        self.book.mark_sent(held.stream, held.wave)
    }

    // Releases what has come in of a wave, which goes on.
    fn give_partial(
        &mut self,
        context: &NodeContext<'_>,
        held: &mut HeldWave<T>,
    ) -> Result<(), AllocError>
        requires known { IsIn held.old.stream held.old.wave self.old.book }
        requires fits { FitsAt context.now self.old.book held.old }
        requires due { due_in context.now held.old.stream (book_of self.old.book held.old.stream held.old.wave)
            ≡ Act.Partial }
        ensures { OnOk result (StepsWaveAt context.now (act_at context.now held.old.stream held.old.wave)
            held.old held.new self.old self.new) }
    {
        let Some(part) = &held.part else {
            unreachable!()
        };
        ranks_within_limit(part.coverage());
        let tree = part.tree().copy()?;
        let alloc = *self.effects.releases.allocator();
        let release = next_release(alloc, context, held, Kind::Partial, tree)?;
        self.effects.releases.push(release)?;
        self.book.mark_sent(held.stream, held.wave)?;
        held.release_count += 1;
        Ok(())
    }

    // Releases what has come in of a wave, and closes the wave.
    fn give_final(
        &mut self,
        context: &NodeContext<'_>,
        held: &mut HeldWave<T>,
    ) -> Result<(), AllocError>
        requires context { IsNodeContext context.now }
        requires known { IsIn held.old.stream held.old.wave self.old.book }
        requires fits { FitsAt context.now self.old.book held.old }
        requires due { due_in context.now held.old.stream (book_of self.old.book held.old.stream held.old.wave)
            ≡ Act.Final }
        ensures { OnOk result (StepsWaveAt context.now (act_at context.now held.old.stream held.old.wave)
            held.old held.new self.old self.new) }
    {
        let Some(part) = held.part.take() else {
            unreachable!()
        };
        send_dones::<T>(context, held.stream, held.wave, &mut self.effects.sends)?;
        ranks_within_limit(part.coverage());
        let alloc = *self.effects.releases.allocator();
        let release = next_release(alloc, context, held, Kind::Final, part.into_tree())?;
        self.effects.releases.push(release)?;
        self.book.close(held.stream, held.wave);
        held.release_count += 1;
        Ok(())
    }

    // Performs the act that is due for a wave.
    fn do_act(
        &mut self,
        context: &NodeContext<'_>,
        what: Act,
        held: &mut HeldWave<T>,
    ) -> Result<(), AllocError>
        requires context { IsNodeContext context.now }
        requires known { IsIn held.old.stream held.old.wave self.old.book }
        requires fits { FitsAt context.now self.old.book held.old }
        requires due { what
            ≡ due_in context.now held.old.stream (book_of self.old.book held.old.stream held.old.wave) }
        ensures { OnOk result (StepsWaveAt context.now (act_at context.now held.old.stream held.old.wave)
            held.old held.new self.old self.new) }
    {
        match what {
            Act::Hold => Ok(()),
            Act::Arm => {
                self.start_timer(context, held);
                Ok(())
            }
            Act::Send => self.pass_up(context, held),
            Act::Partial => self.give_partial(context, held),
            Act::Final => self.give_final(context, held),
        }
    }

    /// Does what is due for a wave.
    pub fn act(
        &mut self,
        context: &NodeContext<'_>,
        held: &mut HeldWave<T>,
    ) -> Result<(), AllocError>
        requires context { IsNodeContext context.now }
        requires known { IsIn held.old.stream held.old.wave self.old.book }
        requires fits { FitsAt context.now self.old.book held.old }
        ensures { OnOk result (StepsWaveAt context.now (act_at context.now held.old.stream held.old.wave)
            held.old held.new self.old self.new) }
    {
        let what = due_for(context, &self.book, held);
        self.do_act(context, what, held)
    }
}

//! The optimum: searched for, kept, and adopted as the working timetable.

ghost use Rattle.std.specs.Prelude.{◌≡◌, ◌⊎◌, IsErr, IfOk, IfErr, IfSome, IsOkAnd, IsSomeAnd, OnOk, OnErr, Some, None};
ghost use Rattle.pesp_base.specs.declared.refusal.Refusal.TheVariants as no;
ghost use Rattle.std.specs.List.Sorted.{IsStrictlyIncreasing};
ghost use Rattle.pesp_tension.specs.Timetables.{timed_events};
ghost use Rattle.pesp_search.specs.declared.answer.Answer.TheVariants as answers;
ghost use Rattle.pesp_instance.specs.Network.{Network};
ghost use Rattle.pesp_search.specs.Optima.{IsAnswer};
ghost use Rattle.pesp_search.specs.Tried.{IsEnd};
ghost use Rattle.pesp_search.specs.Tree.{WerePushed};
ghost use Rattle.pesp_bench.specs.Trials.{IsPriced, IsTrialRefusal};
ghost use Rattle.pesp_bench.specs.Asked.{IsAdopted, IsAttempt, IsLent, IsNoOptimum, IsNotAdopted, IsSearched, IsSought, IsUnsearched};

use crate::candidate::{candidate_cost, or_candidate};
use crate::costing::KeptCost;
use crate::trial::search_trial;
use crate::{Attempt, Bench, Sought, Trial};
use pesp_base::{Memory, Refusal};
use pesp_domains::Keeper;
use pesp_search::{Answer, Best, Known, Searches, known_after};
use pesp_tension::Timetable;
use std::alloc::Global;

/// A copy of a timetable.
fn copy_of(alloc: Global, times: &Timetable) -> Result<Timetable, Memory>
    ensures copy { IfOk result (λ copy. copy ≡ times.now) }
    ensures rising { IfOk result (λ copy. IsStrictlyIncreasing (timed_events copy)) }
{
    let mut copy = Timetable::new(alloc, times.period());
    for timed in times.walk() {
        if copy.set(timed.event, timed.time).is_err() {
            return Err(Memory);
        }
    }
    Ok(copy)
}

/// Makes a copy of a stopped search's timetable the candidate. If memory runs out, the earlier
/// candidate remains, which is no error: each use checks it.
fn keep_found(alloc: Global, found: &Option<Best>, candidate: &mut Option<Timetable>)
    ensures { (candidate.new ≡ candidate.old)
        ⊎ IsSomeAnd found.now (λ best. candidate.new ≡ Some best.times) }
{
    if let Some(best) = found {
        if let Ok(copy) = copy_of(alloc, &best.times) {
            *candidate = Some(copy);
        }
    }
}

/// The answer of a search that ended, from the best timetable that it found.
fn answer_of(best: Option<Best>) -> Answer
    ensures { (I : Network) → IsEnd I best → IsAnswer I result }
{
    match best {
        Some(Best { cost, times }) => Answer::Optimal { cost, times },
        None => Answer::Infeasible,
    }
}

/// A copy of the optimum with its cost.
///
/// Refusals: 12 if no timetable meets everything; otherwise 10.
fn optimum_of(alloc: Global, answer: &Answer) -> Result<Best, Refusal>
    ensures ok { IfOk result (λ best. answer.now ≡ answers.Optimal best.cost best.times) }
    ensures rising { IfOk result (λ best. IsStrictlyIncreasing (timed_events best.times)) }
    ensures refused { IfErr result (IsNoOptimum answer.now) }
{
    match answer {
        Answer::Optimal { cost, times } => match copy_of(alloc, times) {
            Ok(times) => Ok(Best { cost: *cost, times }),
            Err(Memory) => Err(Refusal::Memory),
        },
        Answer::Infeasible => Err(Refusal::Infeasible),
    }
}

impl<K: Keeper> Bench<K> {
    ghost use Rattle.std.specs.Prelude.{⊤};
    ghost use Rattle.std.specs.Borrow.{follows_so, sem};
    ghost use Rattle.pesp_bench.specs.contracts.bench.Bench.{the_row};
    ghost use mathlib.Core.Option.{none};

    /// Searches for the optimum to the end, unless it is known. [`Bench::known`] returns it
    /// afterwards.
    ///
    /// A stopped search of the same network is resumed, and the candidate's cost bounds the search;
    /// no clause says either.
    ///
    /// Refusal: 10, before the first node. The optimum is not known then.
    #[tactic(auto, using(pesp_search::proofs::Sizes::no_nodes))]
    pub fn find_optimum(&mut self, alloc: Global) -> Result<(), Refusal>
        ensures ok { OnOk result (IsSomeAnd self.new.known (IsAnswer self.old.instance)) }
        ensures searched { IsSearched self.old self.new }
        ensures times { self.new.times ≡ self.old.times }
        ensures refused { IfErr result (λ refusal. refusal ≡ no.Memory) }
        ensures unsearched { OnErr result (IsUnsearched self.old self.new) }
    {
        self.nodes = 0;
        if self.known.is_some() {
            return Ok(());
        }
        let bound = candidate_cost(self.keeper.instance(), &self.candidate);
        let before = &mut self.searches;
        let Ok((known, nodes)) = known_after(alloc, &mut self.keeper, before, bound, None) else {
            return Err(Refusal::Memory);
        };
        self.known = Some(answer_of(known.best));
        self.candidate = None;
        self.nodes = nodes;
        Ok(())
    }

    /// The optimum, as [`Bench::find_optimum`] makes it known. The working timetable does not
    /// change. The only error is out of memory, before the first node.
    ///
    /// docs/DECISIONS.md, "Workbench", says why it returns `Memory`, and why the clause `leaves`
    /// specifies the state after the borrow.
    pub fn optimum(&mut self, alloc: Global) -> Result<&Answer, Memory>
        ensures* leaves { sem 𝓛 (follows_so (the_row K.row K.Keeper) (the_row K.row K.Keeper) self.entry.ghost_name none (λ _ _. ⊤) (λ after. IsLent self.old after (λ answer. answer.now) result)) }
        ensures ok { IfOk result (λ answer. IsAnswer self.old.instance answer.now) }
        ensures kept { IfSome self.old.known
            (λ known. IsOkAnd result (λ answer. answer.now ≡ known)) }
        ensures refused { IsErr result → self.old.known ≡ None }
    {
        if self.find_optimum(alloc).is_err() {
            return Err(Memory);
        }
        Ok(self.known.as_ref().unwrap())
    }

    /// Searches for the optimum in at most `limit` nodes, unless it is known, and returns a lower
    /// bound.
    ///
    /// `Done` means that the optimum is known: [`Bench::known`] returns it, and the lower bound is
    /// its cost, or 0 if no timetable meets everything. A known optimum needs no node. `Stopped`
    /// comes after exactly `limit` nodes, with the best timetable found, if any. It costs at most
    /// as much as any that meets everything and that the uncut tree reaches in `limit` nodes. It
    /// may be the candidate, the timetable of a forgotten optimum or of an earlier stopped search,
    /// if that still meets everything and the search found none at its cost or below. No timetable
    /// that meets everything costs less than the lower bound.
    ///
    /// With a limit above 0 a search by cycles comes before the tree, or a local search if there
    /// are too many cycles. Its budget is a number of units of work for each node (docs/FORMATS.md,
    /// "Commands and replies"). A stopped search by cycles is resumed if its network is the same; a
    /// search through the tree restarts. No clause says so.
    ///
    /// Refusal: 10, before the first node. The optimum is not known then.
    #[tactic(auto, using(pesp_search::proofs::Sizes::no_nodes))]
    pub fn seek_optimum(&mut self, alloc: Global, limit: u64) -> Result<Sought, Refusal>
        ensures ok { IfOk result (IsSought self.old.instance self.new limit) }
        ensures searched { IsSearched self.old self.new }
        ensures times { self.new.times ≡ self.old.times }
        ensures refused { IfErr result (λ refusal. refusal ≡ no.Memory) }
        ensures unsearched { OnErr result (IsUnsearched self.old self.new) }
    {
        self.nodes = 0;
        if let Some(answer) = &self.known {
            return Ok(Sought::from_answer(answer));
        }
        let bound = candidate_cost(self.keeper.instance(), &self.candidate);
        let before = &mut self.searches;
        let keeper = &mut self.keeper;
        let Ok((known, nodes)) = known_after(alloc, keeper, before, bound, Some(limit)) else {
            return Err(Refusal::Memory);
        };
        self.nodes = nodes;
        let Known {
            best,
            lower_bound,
            is_stopped,
        } = known;
        if is_stopped {
            let found = or_candidate(best, bound, &mut self.candidate);
            keep_found(alloc, &found, &mut self.candidate);
            let attempt = Attempt::Stopped(found);
            return Ok(Sought {
                attempt,
                lower_bound,
            });
        }
        let answer = answer_of(best);
        let sought = Sought::from_answer(&answer);
        self.known = Some(answer);
        self.candidate = None;
        Ok(sought)
    }

    /// Whether the next call of [`Bench::seek_optimum`] resumes the last one, if that stopped,
    /// instead of restarting. A call with limit 0 does not change it. It has no clause: nothing
    /// depends on it.
    pub fn goes_on(&self) -> bool {
        self.searches.goes_on()
    }

    /// Whether the next call of [`Bench::price`] with the same trial resumes the last one, if that
    /// stopped. It has no clause: nothing depends on it.
    pub fn price_goes_on(&self) -> bool {
        self.prices.goes_on()
    }

    /// Searches for the optimum in at most `limit` nodes, unless it is known, from the start.
    ///
    /// The attempt is as in [`Bench::seek_optimum`], also with the candidate, but without the lower
    /// bound. The call resumes no stopped search and keeps none: those of `seek_optimum` remain. So
    /// earlier searches affect the result only through a known optimum and the candidate. No clause
    /// says so (docs/PROMISES.md, "Not proved").
    ///
    /// Refusal: 10, before the first node. The optimum is not known then.
    pub fn try_optimum(&mut self, alloc: Global, limit: u64) -> Result<Attempt, Refusal>
        ensures ok { IfOk result (IsAttempt self.new limit) }
        ensures searched { IsSearched self.old self.new }
        ensures times { self.new.times ≡ self.old.times }
        ensures refused { IfErr result (λ refusal. refusal ≡ no.Memory) }
        ensures unsearched { OnErr result (IsUnsearched self.old self.new) }
    {
        // A resumed search would make the reply to `try` depend on earlier ones (docs/DECISIONS.md,
        // "A search by cycles").
        let kept = std::mem::replace(&mut self.searches, Searches::new(alloc));
        let sought = self.seek_optimum(alloc, limit);
        drop(std::mem::replace(&mut self.searches, kept));
        Ok(sought?.attempt)
    }

    /// Searches for the optimum under one more restriction, in at most `limit` nodes, and returns
    /// what is known then, with the number of nodes. Only the count of pushes changes in the state.
    ///
    /// The searched instance is that after `Fix` for a time, or `SetSpan` for a span. At a time
    /// outside the event's window, which `Fix` would replace, nothing is searched: no timetable
    /// meets everything. The result is stopped or ended as in [`known_after`]; neither the known
    /// optimum nor the candidate is used. The next call with the same trial, with no other price in
    /// between, resumes a search that stopped, if [`Bench::price_goes_on`] returns true; no clause
    /// says so.
    ///
    /// Refusals in order: those of the edit (2 and 4 for a time, 6 for a span); 10, before the
    /// first node, but not at a time outside the window.
    pub fn price(
        &mut self,
        alloc: Global,
        trial: &Trial,
        limit: u64,
    ) -> Result<(Known, u64), Refusal>
        ensures ok { IfOk result (λ r. IsPriced self.old.instance trial.now limit r.0 r.1) }
        ensures refused { IfErr result (IsTrialRefusal self.old.instance trial.now) }
        ensures unchanged { self.new ≡ record self.old { push_count = self.new.push_count } }
        ensures pushed { IfOk result (λ r.
            WerePushed self.old.push_count r.1 self.new.push_count) }
        ensures unpushed { OnErr result (self.new.push_count ≡ self.old.push_count) }
    {
        search_trial(alloc, &mut self.keeper, &mut self.prices, trial, limit)
    }

    /// Makes the optimum the working timetable, and searches for it unless it is known.
    ///
    /// Refusals: 12 if no timetable meets everything; 10, before that is known, or for the copy of
    /// a known optimum. A refused call leaves the working timetable, and may have made the optimum
    /// known.
    pub fn adopt(&mut self, alloc: Global) -> Result<(), Refusal>
        ensures ok { OnOk result (IsAdopted self.new) }
        ensures searched { IsSearched self.old self.new }
        ensures refused { IfErr result (IsNotAdopted self.new) }
        ensures times { OnErr result (self.new.times ≡ self.old.times) }
    {
        self.find_optimum(alloc)?;
        let best = optimum_of(alloc, self.known.as_ref().unwrap())?;
        // An optimum has a time for every event.
        self.kept = KeptCost {
            cost: best.cost,
            missing: 0,
        };
        self.times = best.times;
        Ok(())
    }
}

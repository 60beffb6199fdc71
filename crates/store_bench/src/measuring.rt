//! The measurements: loads of an array, reads of a store and moves in it are timed, and each is printed in a line.
ghost use Rattle.std.specs.Prelude.{◌≡◌, ◌≤◌, All};
ghost use Rattle.std.specs.Thread.{IsSync};
ghost use Rattle.kc_graph.specs.declared.limits.TheConstants.{MAX_VERTICES};
ghost use Rattle.kc_groups.specs.WellFormed.{IsWellFormed};
ghost use Rattle.store_bench.specs.private.Showing.{ArePlans, IsFresh};

use crate::plans::make_plans;
use crate::reading::{Reader, by_chance, make_readers};
use crate::showing::{mark, may_begin, show, show_next};
use crate::timing::{
    now, since, time_loads, time_ones, time_opening, time_readers, time_writer, time_zeroing,
    words_of,
};
use anyhow::ensure;
use kc_groups::PhasePlan;
use kc_store::{Store, Writer};
use std::alloc::Global;
use std::thread;
use std::thread::Threads;
use std::time::{Clock, Duration};

/// How much is measured: the number of vertices, how many reads a reader has, and how many plans a writer shows.
#[derive(Clone, Copy)]
pub struct Sizes {
    /// How many vertices there are.
    pub vertices: u32,
    /// How many reads each reader makes.
    pub reads: u32,
    /// How many plans a writer shows.
    pub plans: u32,
}

// What is read and shown, and how it is printed.
#[derive(Drop)]
struct Bench<'a, R> {
    rt: &'a R,
    alloc: Global,
    // The number of vertices.
    vertices: u32,
    // Whether lines tell times.
    timed: bool,
    // The vertices that each reader takes, in order.
    order: &'a [u32],
    // The phases that are shown, in order.
    plans: &'a [PhasePlan],
    ghost some: { 1 ≤ vertices },
    ghost few: { vertices ≤ MAX_VERTICES },
}

impl<'a, R: Threads + Sync + Clock + Print> Bench<'a, R> {
    // Prints a line: what was measured, by how many threads at once, of how many vertices, and how many loads, reads or
    // moves that were. If `timed`, the line ends with the time of all of them.
    fn print(&self, what: &str, threads: u32, count: u64, time: Duration) -> anyhow::Result<()> {
        let rt = self.rt;
        if self.timed {
            println!(rt;
                "{what} {threads} {} {count} {}",
                self.vertices,
                time.as_nanos()
            )?;
        } else {
            println!(rt; "{what} {threads} {} {count}", self.vertices)?;
        }
        Ok(())
    }

    // Prints the line of `threads` threads, each of which takes all vertices of `order`.
    fn print_each(&self, what: &str, threads: u32, time: Duration) -> anyhow::Result<()> {
        let count = u64::from(threads).saturating_mul(self.order.len() as u64);
        self.print(what, threads, count, time)
    }

    // Prints loads from an array of as many words as a store has, by `count` threads at once.
    fn print_plain(&self, count: u32) -> anyhow::Result<()> {
        let words = vec![in self.alloc; 1u64; words_of(self.vertices)]?;
        let mut sums = vec![in self.alloc; 0u64; count as usize]?;
        let (words, sums) = (words.as_slice(), sums.as_mut_slice());
        let time = time_loads(self.rt, words, self.order, sums)?;
        self.print_each("plain", count, time)
    }

    // Prints reads of a store with all vertices on level 1, by `count` readers at once.
    fn print_ones(
        &self,
        what: &str,
        store: &Store,
        writer: &mut Writer,
        count: u32,
    ) -> anyhow::Result<()>
        requires { writer.old.table ≡ store.now.table }
        ensures { writer.new ≡ writer.old }
    {
        let mut readers = make_readers(self.alloc, store, writer, count)?;
        let time = time_ones(self.rt, self.order, readers.as_mut_slice());
        drop(readers);
        self.print_each(what, count, time?)
    }

    // Prints reads of a store of which all moves are cleared: one load each. Then it marks all moves of the second
    // plan, publishes no group, and prints reads of three loads each.
    fn print_both(&self, store: &Store, writer: &mut Writer, count: u32) -> anyhow::Result<()>
        requires fresh { IsFresh self.now.vertices store.now writer.old }
        requires plans { ArePlans self.now.vertices self.now.plans.now }
    {
        let n = self.vertices;
        let (first, second) = (&self.plans[0], &self.plans[1]);
        let shown = show_next(store, writer, n, 0, first);
        ensure!(shown, "the first plan can't begin");
        self.print_ones("rest", store, writer, count)?;
        let may = may_begin(store, writer, n, 1, second);
        ensure!(may, "the second plan can't begin");
        mark(store, writer, second, n);
        self.print_ones("marked", store, writer, count)
    }

    // Lets the writer show the plans while the readers read. Returns the time of the writer and that of the readers.
    fn side_by_side(
        &self,
        store: &Store,
        writer: &mut Writer,
        readers: &mut [Reader<'_>],
    ) -> (anyhow::Result<Duration>, anyhow::Result<Duration>)
        requires fresh { IsFresh self.now.vertices store.now writer.old }
        requires plans { ArePlans self.now.vertices self.now.plans.now }
    {
        let (rt, n) = (self.rt, self.vertices);
        let (plans, order) = (self.plans, self.order);
        thread::join_mut(
            rt,
            &mut || time_writer(rt, store, writer, n, plans),
            &mut ||
                requires { IsSync R.row }
            { time_readers(rt, order, readers) },
        )
    }

    // Prints reads beside a writer that shows one plan after another, and the writer's work. Its time says whether it
    // lasted as long as the reads.
    fn print_work(&self, store: &Store, writer: &mut Writer, count: u32) -> anyhow::Result<()>
        requires fresh { IsFresh self.now.vertices store.now writer.old }
        requires plans { ArePlans self.now.vertices self.now.plans.now }
    {
        let mut readers = make_readers(self.alloc, store, writer, count)?;
        let (written, read) = self.side_by_side(store, writer, readers.as_mut_slice());
        drop(readers);
        let (written, read) = (written?, read?);
        self.print_each("beside", count, read)?;
        let moves = u64::from(self.vertices).saturating_mul(self.plans.len() as u64);
        self.print("writer", count, moves, written)
    }

    // Returns the time in which a writer alone marks, publishes and clears each move of the first plan.
    fn time_moves(&self, store: &Store, writer: &mut Writer) -> anyhow::Result<Duration>
        requires fresh { IsFresh self.now.vertices store.now writer.old }
        requires plans { ArePlans self.now.vertices self.now.plans.now }
    {
        let first = &self.plans[0];
        let may = may_begin(store, writer, self.vertices, 0, first);
        ensure!(may, "the first plan can't begin");
        let start = now(self.rt)?;
        show(store, writer, first, self.vertices);
        since(self.rt, start)
    }

    // Prints reads by `count` readers at once while no writer runs. They are of a store whose moves are cleared, then
    // of one whose moves are marked.
    fn print_without_writer(&self, count: u32) -> anyhow::Result<()>
        requires plans { ArePlans self.now.vertices self.now.plans.now }
    {
        let (store, mut writer) = Store::open(self.alloc, self.vertices, 0)?;
        let printed = self.print_both(&store, &mut writer, count);
        // Dropped by calls, since values that end with their scope are dear to prove.
        drop(writer);
        drop(store);
        printed
    }

    // Prints reads by `count` readers at once while a writer works.
    fn print_beside(&self, count: u32) -> anyhow::Result<()>
        requires plans { ArePlans self.now.vertices self.now.plans.now }
    {
        let (store, mut writer) = Store::open(self.alloc, self.vertices, 0)?;
        let printed = self.print_work(&store, &mut writer, count);
        drop(writer);
        drop(store);
        printed
    }

    // Prints the work of a writer alone: one plan, in which each vertex moves.
    fn print_moves(&self) -> anyhow::Result<()>
        requires plans { ArePlans self.now.vertices self.now.plans.now }
    {
        let (store, mut writer) = Store::open(self.alloc, self.vertices, 0)?;
        let time = self.time_moves(&store, &mut writer);
        drop(writer);
        drop(store);
        self.print("moves", 1, u64::from(self.vertices), time?)
    }

    // Prints the measurements of loads, reads and moves.
    fn print_reads(&self) -> anyhow::Result<()>
        requires plans { ArePlans self.now.vertices self.now.plans.now }
    {
        for count in [1, 8] {
            self.print_plain(count)?;
            self.print_without_writer(count)?;
            self.print_beside(count)?;
        }
        self.print_moves()
    }

    // Prints what it takes to open a store, and before it to zero as much memory as it has.
    fn print_opening(&self) -> anyhow::Result<()> {
        let (rt, alloc, n) = (self.rt, self.alloc, self.vertices);
        let words = words_of(n) as u64;
        self.print("zeroed", 1, words, time_zeroing(rt, alloc, n)?)?;
        self.print("opened", 1, words, time_opening(rt, alloc, n)?)
    }
}

/// Prints the measurements of loads, reads and moves.
pub fn print_reads<R: Threads + Sync + Clock + Print>(
    rt: &R,
    alloc: Global,
    sizes: Sizes,
    timed: bool,
) -> anyhow::Result<()>
    requires vertices { (1 ≤ sizes.vertices) × (sizes.vertices ≤ MAX_VERTICES) }
    requires plans { 2 ≤ sizes.plans }
{
    let order = by_chance(alloc, sizes.vertices, sizes.reads)?;
    let plans = make_plans(alloc, sizes.vertices, sizes.plans)?;
    let bench = Bench {
        rt,
        alloc,
        vertices: sizes.vertices,
        timed,
        order: order.as_slice(),
        plans: plans.as_slice(),
    };
    bench.print_reads()
}

/// Prints what it takes to open a store, and before it to zero as much memory as it has.
pub fn print_opening<R: Threads + Sync + Clock + Print>(
    rt: &R,
    alloc: Global,
    vertices: u32,
    timed: bool,
) -> anyhow::Result<()>
    requires { (1 ≤ vertices) × (vertices ≤ MAX_VERTICES) }
{
    let bench = Bench {
        rt,
        alloc,
        vertices,
        timed,
        order: &[],
        plans: &[],
    };
    bench.print_opening()
}

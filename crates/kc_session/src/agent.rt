//! A reader that puts its questions while batches are shown.
ghost use Rattle.std.specs.Prelude.{◌≡◌, ◌≤◌, ◌<◌, ◌++◌, ◌*◌, ◌^◌, true, false, length, take, All, IfOk, OnOk};
ghost use mathlib.Core.List.{IsPrefix};
ghost use Rattle.kc_history.specs.Replies.{AreExplained, vertices_of, zeros};
ghost use Rattle.kc_store.specs.States.{with_joined};
ghost use Rattle.kc_session.specs.Agents.{questions, repeated, agent_for, given};
ghost use Rattle.kc_session.specs.Asking.{HasRun};

use crate::progress::{Pace, Progress};
use kc_batch::Ask;
use kc_history::Reply;
use kc_rounds::{Gate, Spot};
use kc_store::{Pass, Store, Writer};
use std::alloc::{AllocError, Global};
use std::marker::Model;

/// A reader of a store: it puts the questions of one ask, and keeps the replies.
///
/// Contracts see an `AgentShape`: the agent's store, number, ask and replies, and whether it has run. They also see
/// what its pass has seen of the history, and how long the history was when the pass was made.
///
/// Three facts hold of each agent (`IsAgent`). Its replies answer the first questions of its ask, in order. Once it has
/// run, they answer all of them. The history that its pass has seen explains the replies.
#[derive(Drop)]
pub struct Agent {
    // The pass that reads the store. From the point at which the pass was made, the history that it has seen explains
    // the replies.
    pass: Pass,
    // The number of the store's vertices. Each vertex of the ask is below it.
    vertices: u32,
    // The number of the agent, counted from 0. The gate gets it with each question.
    reader: u32,
    // At most 65,536 questions.
    ask: Ask,
    // One reply for each question, in order, so that a run takes no memory. The levels are those of the store once the
    // agent has run.
    replies: Vec<Reply>,
    // Whether all questions were put. Before that no reply counts.
    has_run: bool,
}

impl Model for Agent {
    ghost use Rattle.kc_session.specs.Agents.{AgentShape, agent_shape, IsKept};

    ghost Value = { AgentShape };

    ghost view = { λ a. agent_shape a.pass a.vertices a.reader a.ask a.replies.items a.has_run };

    ghost invariant = { λ a. IsKept (agent_shape a.pass a.vertices a.reader a.ask a.replies.items a.has_run) a.replies.items };
}

// Appends a reply of level 0 for each of the vertices.
fn push_zeros(replies: &mut Vec<Reply>, vertices: &[u32]) -> Result<(), AllocError>
    ensures { OnOk result (replies.new.items ≡ replies.old.items ++ zeros vertices.now) }
{
    for v in vertices {
        replies.push(Reply {
            vertex: *v,
            level: 0,
        })?;
    }
    Ok(())
}

// Makes a reply of level 0 for each question.
fn zeros_for(alloc: Global, ask: &Ask) -> Result<Vec<Reply>, AllocError>
    ensures { IfOk result (λ replies. replies.items ≡ zeros (questions ask.now)) }
{
    let mut replies = Vec::new(alloc);
    for _turn in 0..ask.times {
        push_zeros(&mut replies, ask.vertices.as_slice())?;
    }
    Ok(replies)
}

// Returns the kept replies, or none if the agent hasn't run.
fn given(has_run: bool, kept: Vec<Reply>) -> Vec<Reply>
    ensures { result.items ≡ given has_run kept.items }
{
    let mut replies = kept;
    if !has_run {
        replies.clear();
    }
    replies
}

// A reader that puts its questions: its number, which the gate gets, and its pace.
#[derive(Drop)]
struct Asker<'a> {
    reader: u32,
    pace: Pace<'a>,
}

// Asks the store for the level of one vertex after another, at the pace of the asker.
fn ask_all<G: Gate>(
    gate: &G,
    store: &Store,
    asker: Asker<'_>,
    pass: &mut Pass,
    replies: &mut Vec<Reply>,
)
    requires table { pass.old.table ≡ store.now.table }
    requires made { pass.old.made ≤ length pass.old.seen }
    requires vertices { All (λ r. r.vertex < store.now.vertices) replies.old.items }
    requires few { length replies.old.items < 2 ^ 32 }
    ensures same { pass.new ≡ record pass.old { seen = pass.new.seen } }
    ensures later { IsPrefix pass.old.seen pass.new.seen }
    ensures vertices { vertices_of replies.new.items ≡ vertices_of replies.old.items }
    ensures explained { AreExplained store.now.vertices pass.new.seen pass.old.made replies.new.items }
{
    let Asker { reader, mut pace } = asker;
    for i in 0..replies.len() {
        pace.keep(i);
        let ask = i as u32;
        gate.at(Spot::Asking { reader, ask });
        let vertex = replies[i].vertex;
        let level = store.read(pass, vertex);
        replies[i] = Reply { vertex, level };
        gate.at(Spot::Replied { reader, ask });
    }
}

impl Agent {
    /// Makes an agent with this number for an ask (`agent_for`). It has seen the writer's whole history and has not
    /// run.
    ///
    /// The vertices of the ask are below the store's number of vertices, and it has at most 65,536 questions. The
    /// writer is the store's. Takes memory for a reply to each question, and then splits off a pass. If there is no
    /// memory, the ask is dropped.
    pub fn open(
        alloc: Global,
        reader: u32,
        ask: Ask,
        store: &Store,
        writer: &mut Writer,
    ) -> Result<Agent, AllocError>
        requires table { writer.old.table ≡ store.now.table }
        requires vertices { All (λ v. v < store.now.vertices) ask.vertices }
        requires few { ask.times * length ask.vertices ≤ 65536 }
        ensures same { writer.new ≡ writer.old }
        ensures agent { IfOk result (λ agent. agent ≡ agent_for store.now writer.old.state.history reader ask) }
    {
        let replies = zeros_for(alloc, &ask)?;
        Ok(Agent {
            pass: writer.pass(store),
            vertices: store.vertices(),
            reader,
            ask,
            replies,
            has_run: false,
        })
    }

    /// Puts the questions of the ask one after another: its vertices in order, the whole list `times` times over.
    ///
    /// The store is the one that the agent was opened with, and the agent has not run. The gate gets `Asking` before
    /// each question and `Replied` after it; questions are counted from 0. Takes no memory. Cost: one read of the store
    /// a question.
    pub fn run<G: Gate + Sync>(&mut self, gate: &G, store: &Store)
        requires store { self.old.store ≡ store.now }
        requires first { self.old.has_run ≡ false }
        ensures { HasRun self.old self.new }
    {
        self.run_beside(gate, store, &Progress::new(0));
    }

    /// Puts the questions as `run` does, but spreads them over the batches that are applied meanwhile.
    ///
    /// Before the first question the agent looks whether the batches have begun. Between two repetitions of the list it
    /// looks whether a batch moved a vertex since the last repetition began. It looks at most as often as `progress`
    /// says, and lets other threads run after each look. After the last batch it goes on at once.
    ///
    /// The call always ends: a progress that never changes costs the agent only its looks. A look is one load of a
    /// word.
    pub fn run_beside<G: Gate + Sync>(&mut self, gate: &G, store: &Store, progress: &Progress)
        requires store { self.old.store ≡ store.now }
        requires first { self.old.has_run ≡ false }
        ensures { HasRun self.old self.new }
    {
        let asker = Asker {
            reader: self.reader,
            pace: Pace::begin(progress, self.ask.vertices.as_slice().len()),
        };
        ask_all(gate, store, asker, &mut self.pass, &mut self.replies);
        self.has_run = true;
    }

    /// Takes the pass of the agent in, and returns the replies: one for each question, or none if the agent has not
    /// run. From the point at which the agent was opened, the writer's history explains the replies.
    ///
    /// The store is the one that the agent was opened with, and the writer is the store's. Takes no memory.
    pub fn close(self, store: &Store, writer: &mut Writer) -> Vec<Reply>
        requires table { writer.old.table ≡ store.now.table }
        requires store { self.store ≡ store.now }
        ensures writer { writer.new ≡ record writer.old { state = with_joined self.seen writer.old.state } }
        ensures replies { result.items ≡ self.replies }
        ensures first { vertices_of result.items ≡ take (length result.items) (questions self.ask) }
        ensures all { self.has_run ≡ true → vertices_of result.items ≡ questions self.ask }
        ensures explained { AreExplained self.store.vertices writer.new.state.history self.made result.items }
    {
        let Agent {
            pass,
            vertices: _,
            reader: _,
            ask: _,
            replies,
            has_run,
        } = self;
        writer.take_in(store, pass);
        given(has_run, replies)
    }
}
